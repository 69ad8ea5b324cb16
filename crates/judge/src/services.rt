// What is decided about a request of each service.
ghost use Rattle.std.specs.Prelude.{◌≡◌};
ghost use Rattle.judge.specs.Judge.{decide_of};

use crate::addresses::{address_read, address_write, descriptor, serial_read, serial_write};
use crate::decisions::refused;
use crate::groups::{Flag, group_put, group_read};
use crate::keys::{authorize, key_write, restart};
use crate::memory::{MemoryRequest, bit_write, memory_read, memory_write};
use crate::properties::{PropertyRequest, description, property_read, property_write};
use crate::{Decision, Refusal};
use pdu::Pdu;
use sheet::{Memory, Sheet};

// A request with data d, at a level. An answer to a tool is no request.
pub fn decide(sheet: Sheet<'_>, level: u8, group: u16, d: &[u8], p: Pdu) -> Decision
    ensures { result ≡ decide_of sheet.entry.bytes.now level group d.now p }
{
    match p {
        Pdu::GroupValueRead => group_read(sheet, group),
        Pdu::GroupValueResponse { v } => group_put(Flag::Response, sheet, group, v, d.len()),
        Pdu::GroupValueWrite { v } => group_put(Flag::Write, sheet, group, v, d.len()),
        Pdu::IndividualAddressWrite { address } => address_write(sheet, address),
        Pdu::IndividualAddressRead => address_read(sheet),
        Pdu::SerialNumberRead { serial } => serial_read(sheet.bytes, serial),
        Pdu::SerialNumberWrite { serial, address } => serial_write(sheet.bytes, serial, address),
        Pdu::DeviceDescriptorRead { t } => descriptor(sheet.bytes, t),
        Pdu::PropertyValueRead { object, id, n, s } => {
            property_read(
                sheet,
                PropertyRequest {
                    level,
                    object,
                    id,
                    n,
                    s,
                },
            )
        }
        Pdu::PropertyValueWrite { object, id, n, s } => {
            property_write(
                sheet,
                PropertyRequest {
                    level,
                    object,
                    id,
                    n,
                    s,
                },
                d,
            )
        }
        Pdu::PropertyDescriptionRead { object, id, index } => description(sheet, object, id, index),
        Pdu::MemoryRead { n, address } => memory_read(
            sheet,
            MemoryRequest {
                memory: Memory::Device,
                level,
                n,
                address,
            },
        ),
        Pdu::MemoryWrite { n, address } => memory_write(
            sheet,
            MemoryRequest {
                memory: Memory::Device,
                level,
                n,
                address,
            },
        ),
        Pdu::MemoryBitWrite { n, address } => bit_write(sheet, level, n, address),
        Pdu::AuthorizeRequest { key } => authorize(sheet.bytes, key),
        Pdu::KeyWrite { level: named, key } => key_write(level, named, key),
        Pdu::Restart => restart(sheet),
        Pdu::UserMemoryRead { n, address } => memory_read(
            sheet,
            MemoryRequest {
                memory: Memory::User,
                level,
                n,
                address,
            },
        ),
        Pdu::UserMemoryWrite { n, address } => memory_write(
            sheet,
            MemoryRequest {
                memory: Memory::User,
                level,
                n,
                address,
            },
        ),
        Pdu::IndividualAddressResponse
        | Pdu::SerialNumberResponse { .. }
        | Pdu::DeviceDescriptorResponse { .. }
        | Pdu::PropertyValueResponse { .. }
        | Pdu::PropertyDescriptionResponse { .. }
        | Pdu::MemoryResponse { .. }
        | Pdu::AuthorizeResponse { .. }
        | Pdu::KeyResponse { .. }
        | Pdu::UserMemoryResponse { .. } => refused(Refusal::Service),
    }
}
