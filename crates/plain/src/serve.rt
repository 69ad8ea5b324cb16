// What is done with a request that was read, by its service.
ghost use Rattle.std.specs.Prelude.{◌≡◌, List};
ghost use Rattle.judge.specs.Judge.{decide_of};
ghost use Rattle.plain_services.specs.Steps.{Held, Serves};
ghost use Rattle.plain.specs.Carrying.{ReadAs};

use parts::Parts;
use pdu::Pdu;
use plain_services::{
    Refusal, Reply, address_read, address_write, authorize, bit_write, description, descriptor,
    group_put, group_read, key_write, memory_read, memory_write, property_read, property_write,
    refused, restart, serial_read, serial_write,
};
use sheet::Memory;

// At this level, with this data; the group address counts for group values alone. Answers to a tool do not come this far: they
// were refused by 8 (order.rt).
pub fn serve(u: Parts, level: u8, group: u16, d: &[u8], p: Pdu) -> Reply
    requires { Held u × ReadAs p d.now }
    ensures { Serves u d.now (λ s. decide_of s level group d.now p) result }
{
    match p {
        Pdu::GroupValueRead => group_read(u, group),
        Pdu::GroupValueResponse { v } => group_put(u, true, group, v, d),
        Pdu::GroupValueWrite { v } => group_put(u, false, group, v, d),
        Pdu::IndividualAddressWrite { address } => address_write(u, address),
        Pdu::IndividualAddressRead => address_read(u),
        Pdu::SerialNumberRead { serial } => serial_read(u, serial),
        Pdu::SerialNumberWrite { serial, address } => serial_write(u, serial, address),
        Pdu::DeviceDescriptorRead { t } => descriptor(u, t),
        Pdu::PropertyValueRead { object, id, n, s } => property_read(u, level, object, id, n, s),
        Pdu::PropertyValueWrite { object, id, n, s } => {
            property_write(u, level, object, id, n, s, d)
        }
        Pdu::PropertyDescriptionRead { object, id, index } => description(u, object, id, index),
        Pdu::MemoryRead { n, address } => memory_read(u, Memory::Device, level, n, address),
        Pdu::MemoryWrite { n, address } => memory_write(u, Memory::Device, level, n, address, d),
        Pdu::MemoryBitWrite { n, address } => bit_write(u, level, n, address, d),
        Pdu::AuthorizeRequest { key } => authorize(u, key),
        Pdu::KeyWrite { level: named, key } => key_write(u, level, named, key),
        Pdu::Restart => restart(u),
        Pdu::IndividualAddressResponse => refused(u, Refusal::Service),
        Pdu::SerialNumberResponse { .. } => refused(u, Refusal::Service),
        Pdu::DeviceDescriptorResponse { .. } => refused(u, Refusal::Service),
        Pdu::PropertyValueResponse { .. } => refused(u, Refusal::Service),
        Pdu::PropertyDescriptionResponse { .. } => refused(u, Refusal::Service),
        Pdu::MemoryResponse { .. } => refused(u, Refusal::Service),
        Pdu::AuthorizeResponse { .. } => refused(u, Refusal::Service),
        Pdu::KeyResponse { .. } => refused(u, Refusal::Service),
        Pdu::UserMemoryRead { n, address } => memory_read(u, Memory::User, level, n, address),
        Pdu::UserMemoryResponse { .. } => refused(u, Refusal::Service),
        Pdu::UserMemoryWrite { n, address } => memory_write(u, Memory::User, level, n, address, d),
    }
}
