// Reading: the bytes as those of a service.
ghost use Rattle.std.specs.Prelude.{◌≡◌};
ghost use Rattle.pdu.specs.Read.{built_of, read_as};

use crate::fields::{ID, OBJECT, low, property_value, word};
use crate::rules::allowed;
use crate::{Pdu, ReadRefusal, Service};
use octets::{byte, number};

// The PDU of the service with the fields in the bytes.
fn built(k: Service, s: &[u8]) -> Pdu
    ensures { result ≡ built_of k s.now }
{
    match k {
        Service::GroupValueRead => Pdu::GroupValueRead,
        Service::GroupValueResponse => Pdu::GroupValueResponse { v: low(s, 64) },
        Service::GroupValueWrite => Pdu::GroupValueWrite { v: low(s, 64) },
        Service::IndividualAddressWrite => Pdu::IndividualAddressWrite {
            address: word(s, 2),
        },
        Service::IndividualAddressRead => Pdu::IndividualAddressRead,
        Service::SerialNumberRead => Pdu::SerialNumberRead {
            serial: number(s, 2, 6),
        },
        Service::SerialNumberWrite => Pdu::SerialNumberWrite {
            serial: number(s, 2, 6),
            address: word(s, 8),
        },
        Service::DeviceDescriptorRead => Pdu::DeviceDescriptorRead { t: low(s, 64) },
        Service::PropertyValueRead => {
            property_value(
                s,
                |object, id, n, s| Pdu::PropertyValueRead { object, id, n, s },
            )
        },
        Service::PropertyValueWrite => {
            property_value(
                s,
                |object, id, n, s| Pdu::PropertyValueWrite { object, id, n, s },
            )
        },
        Service::PropertyDescriptionRead => Pdu::PropertyDescriptionRead {
            object: byte(s, OBJECT),
            id: byte(s, ID),
            index: byte(s, 4),
        },
        Service::MemoryRead => Pdu::MemoryRead {
            n: low(s, 16),
            address: word(s, 2),
        },
        Service::MemoryWrite => Pdu::MemoryWrite {
            n: low(s, 16),
            address: word(s, 2),
        },
        Service::MemoryBitWrite => Pdu::MemoryBitWrite {
            n: byte(s, 2),
            address: word(s, 3),
        },
        Service::AuthorizeRequest => Pdu::AuthorizeRequest {
            key: number(s, 3, 4) as u32,
        },
        Service::KeyWrite => Pdu::KeyWrite {
            level: byte(s, 2),
            key: number(s, 3, 4) as u32,
        },
        Service::Restart => Pdu::Restart,
        Service::IndividualAddressResponse => Pdu::IndividualAddressResponse,
        Service::SerialNumberResponse => Pdu::SerialNumberResponse {
            serial: number(s, 2, 6),
            domain: word(s, 8),
        },
        Service::DeviceDescriptorResponse => Pdu::DeviceDescriptorResponse { t: low(s, 64) },
        Service::PropertyValueResponse => {
            property_value(
                s,
                |object, id, n, s| Pdu::PropertyValueResponse { object, id, n, s },
            )
        },
        Service::PropertyDescriptionResponse => Pdu::PropertyDescriptionResponse {
            object: byte(s, OBJECT),
            id: byte(s, ID),
            index: byte(s, 4),
            typ: byte(s, 5),
            maximum: word(s, 6),
            access: byte(s, 8),
        },
        Service::MemoryResponse => Pdu::MemoryResponse {
            n: low(s, 16),
            address: word(s, 2),
        },
        Service::AuthorizeResponse => Pdu::AuthorizeResponse { level: byte(s, 2) },
        Service::KeyResponse => Pdu::KeyResponse { level: byte(s, 2) },
        Service::UserMemoryRead => Pdu::UserMemoryRead {
            n: byte(s, 2),
            address: word(s, 3),
        },
        Service::UserMemoryResponse => Pdu::UserMemoryResponse {
            n: byte(s, 2),
            address: word(s, 3),
        },
        Service::UserMemoryWrite => Pdu::UserMemoryWrite {
            n: byte(s, 2),
            address: word(s, 3),
        },
    }
}

// That PDU, if the table lets it stand in the bytes.
pub(crate) fn judged(k: Service, s: &[u8]) -> Result<Pdu, ReadRefusal>
    ensures { result ≡ read_as k s.now }
{
    let pdu = built(k, s);
    if allowed(pdu, s.len()) {
        Ok(pdu)
    } else {
        Err(ReadRefusal::Fields)
    }
}
