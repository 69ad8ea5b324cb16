// The individual address, in programming mode and by serial number; the descriptor.
ghost use Rattle.std.specs.Prelude.{◌≡◌, List, []};
ghost use Rattle.judge.specs.Addresses.{address_write_of, address_read_of, serial_read_of, serial_write_of, descriptor_of};
ghost use Rattle.plain_services.specs.Steps.{Serves};

use crate::replies::{answered, denied, done, refused};
use crate::{Refusal, Reply};
use parts::Parts;
use pdu::Pdu;

// A new address, in programming mode only.
pub fn address_write(mut parts: Parts, address: u16) -> Reply
    ensures { Serves parts [] (λ s. address_write_of s address) result }
{
    if !parts.head.programming {
        return refused(parts, Refusal::NotForUs);
    }
    parts.head.address = address;
    done(parts)
}

// The device shows itself, in programming mode only.
pub fn address_read(parts: Parts) -> Reply
    ensures { Serves parts [] (λ s. address_read_of s) result }
{
    if !parts.head.programming {
        return refused(parts, Refusal::NotForUs);
    }
    answered(parts, Pdu::IndividualAddressResponse, &[])
}

// The device of that serial number shows itself. Our domain address is 0.
pub fn serial_read(parts: Parts, serial: u64) -> Reply
    ensures { Serves parts [] (λ s. serial_read_of s serial) result }
{
    if serial != parts.head.serial {
        return refused(parts, Refusal::NotForUs);
    }
    answered(parts, Pdu::SerialNumberResponse { serial, domain: 0 }, &[])
}

// A new address for the device of that serial number.
pub fn serial_write(mut parts: Parts, serial: u64, address: u16) -> Reply
    ensures { Serves parts [] (λ s. serial_write_of s serial address) result }
{
    if serial != parts.head.serial {
        return refused(parts, Refusal::NotForUs);
    }
    parts.head.address = address;
    done(parts)
}

// Type 0 is the mask version. Another is denied under rules 1, and not for us under rules 0.
pub fn descriptor(parts: Parts, t: u8) -> Reply
    ensures { Serves parts [] (λ s. descriptor_of s t) result }
{
    if t == 0 {
        let mask = parts.head.mask.to_be_bytes();
        return answered(parts, Pdu::DeviceDescriptorResponse { t: 0 }, &mask);
    }
    if parts.head.rules == 1 {
        return denied(parts, Pdu::DeviceDescriptorResponse { t: 63 });
    }
    refused(parts, Refusal::NotForUs)
}
