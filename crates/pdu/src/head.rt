// Writing: the bytes of a PDU before its data.
ghost use Rattle.std.specs.Prelude.{◌≡◌, [], ◌++◌, ◌+◌, ◌*◌, ◌≤◌, length};
ghost use Rattle.octets.specs.Bytes.{bytes_of};
ghost use Rattle.octets.specs.Splice.{splice};
ghost use Rattle.pdu.specs.Table.{row_of};
ghost use Rattle.pdu.specs.Pdus.{service_of, values_of};
ghost use Rattle.pdu.specs.Rules.{pair_of, ignored, head_bytes};
ghost use Rattle.pdu.specs.Read.{data_at};
ghost use Rattle.pdu.specs.Parts.{run_of, width_of, Narrow};

use crate::Pdu;
use octets::put;

// What ignored bytes are written as.
const IGNORED: u64 = 0;

// The bytes that a number takes, and the number.
#[derive(Clone, Copy)]
struct Part(usize, u64);

// That a buffer has 16 bytes stays a clause here: the public `encode` asks for it of a slice, and a type round it would be taken apart at each put.
// The code, and then the numbers, one after the other.
fn numbers<const N: usize>(out: &mut [u8], code: u64, parts: [Part; N])
    requires { (16 ≤ length out.old) × (Narrow parts) × (width_of parts ≤ 12) }
    ensures { out.new ≡ splice out.old 0 (bytes_of 2 code ++ run_of parts.entry) }
{
    put(out, 0, 2, code);
    let mut at = 2;
    for part in parts {
        put(out, at, part.0, part.1);
        at += part.0;
    }
}

// A property's value: the fields n and s share two bytes.
fn property(out: &mut [u8], code: u64, object: u8, id: u8, n: u8, s: u16)
    requires { 16 ≤ length out.old }
    ensures { out.new ≡ splice out.old 0 (bytes_of 2 code ++ (bytes_of 1 object ++ (bytes_of 1 id ++ (bytes_of 2 (pair_of n s) ++ [])))) }
{
    let pair = u64::from(n) * 4096 + u64::from(s);
    let parts = [Part(1, object.into()), Part(1, id.into()), Part(2, pair)];
    numbers(out, code, parts);
}

// A property's description, asked for.
fn asked(out: &mut [u8], code: u64, object: u8, id: u8, index: u8)
    requires { 16 ≤ length out.old }
    ensures { out.new ≡ splice out.old 0 (bytes_of 2 code ++ (bytes_of 1 object ++ (bytes_of 1 id ++ (bytes_of 1 index ++ [])))) }
{
    let parts = [
        Part(1, object.into()),
        Part(1, id.into()),
        Part(1, index.into()),
    ];
    numbers(out, code, parts);
}

// A property's description, given.
fn described(
    out: &mut [u8],
    code: u64,
    object: u8,
    id: u8,
    index: u8,
    typ: u8,
    maximum: u16,
    access: u8,
)
    requires { 16 ≤ length out.old }
    ensures { out.new ≡ splice out.old 0
        (bytes_of 2 code ++ (bytes_of 1 object ++ (bytes_of 1 id ++ (bytes_of 1 index ++ (bytes_of 1 typ ++ (bytes_of 2 maximum ++ (bytes_of 1 access ++ []))))))) }
{
    let parts = [
        Part(1, object.into()),
        Part(1, id.into()),
        Part(1, index.into()),
        Part(1, typ.into()),
        Part(2, maximum.into()),
        Part(1, access.into()),
    ];
    numbers(out, code, parts);
}

// The code and the fields of the PDU, stored from the first byte on.
#[tactic(auto, unfolding(crate::specs::Rules::head_bytes))]
pub(crate) fn put_head(pdu: Pdu, out: &mut [u8])
    requires { 16 ≤ length out.old }
    ensures { out.new ≡ splice out.old 0 (head_bytes (row_of (service_of pdu)) (values_of pdu)) }
{
    match pdu {
        Pdu::GroupValueRead => numbers(out, 0x000, []),
        Pdu::GroupValueResponse { v } => numbers(out, 0x040 + u64::from(v), []),
        Pdu::GroupValueWrite { v } => numbers(out, 0x080 + u64::from(v), []),
        Pdu::IndividualAddressWrite { address } => numbers(out, 0x0C0, [Part(2, address.into())]),
        Pdu::IndividualAddressRead => numbers(out, 0x100, []),
        Pdu::SerialNumberRead { serial } => numbers(out, 0x3DC, [Part(6, serial)]),
        Pdu::SerialNumberWrite { serial, address } => numbers(
            out,
            0x3DE,
            [Part(6, serial), Part(2, address.into()), Part(4, IGNORED)],
        ),
        Pdu::DeviceDescriptorRead { t } => numbers(out, 0x300 + u64::from(t), []),
        Pdu::PropertyValueRead { object, id, n, s } => property(out, 0x3D5, object, id, n, s),
        Pdu::PropertyValueWrite { object, id, n, s } => property(out, 0x3D7, object, id, n, s),
        Pdu::PropertyDescriptionRead { object, id, index } => asked(out, 0x3D8, object, id, index),
        Pdu::MemoryRead { n, address } => numbers(
            out,
            0x200 + u64::from(n),
            [Part(2, address.into())],
        ),
        Pdu::MemoryWrite { n, address } => numbers(
            out,
            0x280 + u64::from(n),
            [Part(2, address.into())],
        ),
        Pdu::MemoryBitWrite { n, address } => numbers(
            out,
            0x3D0,
            [Part(1, n.into()), Part(2, address.into())],
        ),
        Pdu::AuthorizeRequest { key } => numbers(
            out,
            0x3D1,
            [Part(1, IGNORED), Part(4, key.into())],
        ),
        Pdu::KeyWrite { level, key } => numbers(
            out,
            0x3D3,
            [Part(1, level.into()), Part(4, key.into())],
        ),
        Pdu::Restart => numbers(out, 0x380, []),
        Pdu::IndividualAddressResponse => numbers(out, 0x140, []),
        Pdu::SerialNumberResponse { serial, domain } => numbers(
            out,
            0x3DD,
            [Part(6, serial), Part(2, domain.into()), Part(2, IGNORED)],
        ),
        Pdu::DeviceDescriptorResponse { t } => numbers(out, 0x340 + u64::from(t), []),
        Pdu::PropertyValueResponse { object, id, n, s } => property(out, 0x3D6, object, id, n, s),
        Pdu::PropertyDescriptionResponse {
            object,
            id,
            index,
            typ,
            maximum,
            access,
        } => described(out, 0x3D9, object, id, index, typ, maximum, access),
        Pdu::MemoryResponse { n, address } => numbers(
            out,
            0x240 + u64::from(n),
            [Part(2, address.into())],
        ),
        Pdu::AuthorizeResponse { level } => numbers(out, 0x3D2, [Part(1, level.into())]),
        Pdu::KeyResponse { level } => numbers(out, 0x3D4, [Part(1, level.into())]),
        Pdu::UserMemoryRead { n, address } => numbers(
            out,
            0x2C0,
            [Part(1, n.into()), Part(2, address.into())],
        ),
        Pdu::UserMemoryResponse { n, address } => numbers(
            out,
            0x2C1,
            [Part(1, n.into()), Part(2, address.into())],
        ),
        Pdu::UserMemoryWrite { n, address } => numbers(
            out,
            0x2C2,
            [Part(1, n.into()), Part(2, address.into())],
        ),
    }
}

// Where the PDU's data starts.
pub(crate) fn data_at(pdu: Pdu) -> usize
    ensures { (result ≡ data_at pdu) × (result ≤ 14) }
{
    match pdu {
        Pdu::GroupValueRead
        | Pdu::GroupValueResponse { .. }
        | Pdu::GroupValueWrite { .. }
        | Pdu::IndividualAddressRead
        | Pdu::IndividualAddressResponse
        | Pdu::DeviceDescriptorRead { .. }
        | Pdu::DeviceDescriptorResponse { .. }
        | Pdu::Restart => 2,
        Pdu::AuthorizeResponse { .. } | Pdu::KeyResponse { .. } => 3,
        Pdu::IndividualAddressWrite { .. }
        | Pdu::MemoryRead { .. }
        | Pdu::MemoryWrite { .. }
        | Pdu::MemoryResponse { .. } => 4,
        Pdu::PropertyDescriptionRead { .. }
        | Pdu::MemoryBitWrite { .. }
        | Pdu::UserMemoryRead { .. }
        | Pdu::UserMemoryResponse { .. }
        | Pdu::UserMemoryWrite { .. } => 5,
        Pdu::PropertyValueRead { .. }
        | Pdu::PropertyValueWrite { .. }
        | Pdu::PropertyValueResponse { .. } => 6,
        Pdu::AuthorizeRequest { .. } | Pdu::KeyWrite { .. } => 7,
        Pdu::SerialNumberRead { .. } => 8,
        Pdu::PropertyDescriptionResponse { .. } => 9,
        Pdu::SerialNumberResponse { .. } => 12,
        Pdu::SerialNumberWrite { .. } => 14,
    }
}
