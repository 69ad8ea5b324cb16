// The PDU that a flat one means.
ghost use Rattle.std.specs.Prelude.{◌≡◌};
ghost use Rattle.tool.specs.Flat.{meant_by};

use crate::FlatPdu;
use pdu::Pdu;

// The PDU of the service that has this kind, which is a number in C.
#[tactic(auto, unfolding(crate::specs::Flat::meant_by))]
pub fn meant(f: FlatPdu) -> Option<Pdu>
    ensures { result ≡ meant_by f }
{
    let FlatPdu {
        serial,
        key,
        address,
        domain,
        s,
        maximum,
        v,
        t,
        n,
        index,
        typ,
        access,
        level,
        ..
    } = f;
    let FlatPdu { object, id, .. } = f;
    match f.kind {
        0 => Some(Pdu::GroupValueRead),
        1 => Some(Pdu::GroupValueResponse { v }),
        2 => Some(Pdu::GroupValueWrite { v }),
        3 => Some(Pdu::IndividualAddressWrite { address }),
        4 => Some(Pdu::IndividualAddressRead),
        5 => Some(Pdu::SerialNumberRead { serial }),
        6 => Some(Pdu::SerialNumberWrite { serial, address }),
        7 => Some(Pdu::DeviceDescriptorRead { t }),
        8 => Some(Pdu::PropertyValueRead { object, id, n, s }),
        9 => Some(Pdu::PropertyValueWrite { object, id, n, s }),
        10 => Some(Pdu::PropertyDescriptionRead { object, id, index }),
        11 => Some(Pdu::MemoryRead { n, address }),
        12 => Some(Pdu::MemoryWrite { n, address }),
        13 => Some(Pdu::MemoryBitWrite { n, address }),
        14 => Some(Pdu::AuthorizeRequest { key }),
        15 => Some(Pdu::KeyWrite { level, key }),
        16 => Some(Pdu::Restart),
        17 => Some(Pdu::IndividualAddressResponse),
        18 => Some(Pdu::SerialNumberResponse { serial, domain }),
        19 => Some(Pdu::DeviceDescriptorResponse { t }),
        20 => Some(Pdu::PropertyValueResponse { object, id, n, s }),
        21 => Some(Pdu::PropertyDescriptionResponse {
            object,
            id,
            index,
            typ,
            maximum,
            access,
        }),
        22 => Some(Pdu::MemoryResponse { n, address }),
        23 => Some(Pdu::AuthorizeResponse { level }),
        24 => Some(Pdu::KeyResponse { level }),
        25 => Some(Pdu::UserMemoryRead { n, address }),
        26 => Some(Pdu::UserMemoryResponse { n, address }),
        27 => Some(Pdu::UserMemoryWrite { n, address }),
        _ => None,
    }
}
