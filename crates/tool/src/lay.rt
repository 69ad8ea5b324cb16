// A PDU laid flat: its kind and its fields, and all else 0.
ghost use Rattle.std.specs.Prelude.{◌≡◌, [], ◌∷◌};
ghost use Rattle.pdu.specs.Item.{◌≔◌, Object, Id};
ghost use Rattle.pdu.specs.Pdus.{service_of, values_of};
ghost use Rattle.pdu.specs.Read.{read_pdu};
ghost use Rattle.tool.specs.Flat.{laid, kind_of, flat_of, refusal};

use crate::FlatPdu;
use pdu::Pdu;

// No PDU: a kind that no service has.
const NO_KIND: u8 = 255;

// A refusal, of no kind.
pub fn refuse(n: u8) -> FlatPdu
    ensures { result ≡ refusal n }
{
    FlatPdu {
        outcome: n,
        kind: NO_KIND,
        ..FlatPdu::default()
    }
}

// Of a property: its interface object and its identifier.
fn property(kind: u8, interface: u8, identifier: u8) -> FlatPdu
    ensures { result ≡ laid kind (Object ≔ interface ∷ Id ≔ identifier ∷ []) 0 0 }
{
    FlatPdu {
        kind,
        object: interface,
        id: identifier,
        ..FlatPdu::default()
    }
}

// Each PDU by its kind, the number of its service in C.
#[tactic(auto, unfolding(crate::specs::Flat::kind_of, crate::specs::Flat::place_in))]
fn flat(p: Pdu) -> FlatPdu
    ensures { result ≡ laid (kind_of (service_of p)) (values_of p) 0 0 }
{
    let none = FlatPdu::default();
    match p {
        Pdu::GroupValueRead => FlatPdu { kind: 0, ..none },
        Pdu::GroupValueResponse { v } => FlatPdu { kind: 1, v, ..none },
        Pdu::GroupValueWrite { v } => FlatPdu { kind: 2, v, ..none },
        Pdu::IndividualAddressWrite { address } => FlatPdu {
            kind: 3,
            address,
            ..none
        },
        Pdu::IndividualAddressRead => FlatPdu { kind: 4, ..none },
        Pdu::SerialNumberRead { serial } => FlatPdu {
            kind: 5,
            serial,
            ..none
        },
        Pdu::SerialNumberWrite { serial, address } => FlatPdu {
            kind: 6,
            serial,
            address,
            ..none
        },
        Pdu::DeviceDescriptorRead { t } => FlatPdu { kind: 7, t, ..none },
        Pdu::PropertyValueRead { object, id, n, s } => FlatPdu {
            n,
            s,
            ..property(8, object, id)
        },
        Pdu::PropertyValueWrite { object, id, n, s } => FlatPdu {
            n,
            s,
            ..property(9, object, id)
        },
        Pdu::PropertyDescriptionRead { object, id, index } => FlatPdu {
            index,
            ..property(10, object, id)
        },
        Pdu::MemoryRead { n, address } => FlatPdu {
            kind: 11,
            n,
            address,
            ..none
        },
        Pdu::MemoryWrite { n, address } => FlatPdu {
            kind: 12,
            n,
            address,
            ..none
        },
        Pdu::MemoryBitWrite { n, address } => FlatPdu {
            kind: 13,
            n,
            address,
            ..none
        },
        Pdu::AuthorizeRequest { key } => FlatPdu {
            kind: 14,
            key,
            ..none
        },
        Pdu::KeyWrite { level, key } => FlatPdu {
            kind: 15,
            level,
            key,
            ..none
        },
        Pdu::Restart => FlatPdu { kind: 16, ..none },
        Pdu::IndividualAddressResponse => FlatPdu { kind: 17, ..none },
        Pdu::SerialNumberResponse { serial, domain } => FlatPdu {
            kind: 18,
            serial,
            domain,
            ..none
        },
        Pdu::DeviceDescriptorResponse { t } => FlatPdu {
            kind: 19,
            t,
            ..none
        },
        Pdu::PropertyValueResponse { object, id, n, s } => FlatPdu {
            n,
            s,
            ..property(20, object, id)
        },
        Pdu::PropertyDescriptionResponse {
            object,
            id,
            index,
            typ,
            maximum,
            access,
        } => FlatPdu {
            index,
            typ,
            maximum,
            access,
            ..property(21, object, id)
        },
        Pdu::MemoryResponse { n, address } => FlatPdu {
            kind: 22,
            n,
            address,
            ..none
        },
        Pdu::AuthorizeResponse { level } => FlatPdu {
            kind: 23,
            level,
            ..none
        },
        Pdu::KeyResponse { level } => FlatPdu {
            kind: 24,
            level,
            ..none
        },
        Pdu::UserMemoryRead { n, address } => FlatPdu {
            kind: 25,
            n,
            address,
            ..none
        },
        Pdu::UserMemoryResponse { n, address } => FlatPdu {
            kind: 26,
            n,
            address,
            ..none
        },
        Pdu::UserMemoryWrite { n, address } => FlatPdu {
            kind: 27,
            n,
            address,
            ..none
        },
    }
}

// The PDU that the bytes hold, and where its data stands in them.
pub fn read_as(p: Pdu, apdu: &[u8]) -> FlatPdu
    requires { read_pdu apdu.now ≡ Ok p }
    ensures { result ≡ flat_of p apdu.now }
{
    let n = pdu::data_of(p, apdu).len();
    FlatPdu {
        data_offset: apdu.len() - n,
        data_length: n,
        ..flat(p)
    }
}
