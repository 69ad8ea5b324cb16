// The individual address, by programming mode and by serial number, and the descriptor.
ghost use Rattle.std.specs.Prelude.{◌≡◌, cond};
ghost use Rattle.judge.specs.declared.Answer.TheVariants as answer;
ghost use Rattle.judge.specs.Decisions as made;
ghost use Rattle.judge.specs.Addresses.{in_programming, new_address, address_write_of, address_read_of, serial_read_of, serial_write_of, descriptor_of};

use crate::decisions::{answered, denied, refused, stored};
use crate::{Answer, Decision, Refusal, Store};
use pdu::Pdu;
use sheet::{LATER, Sheet};

// Programming mode is on.
fn in_programming(s: Sheet<'_>) -> bool
    ensures { result ≡ in_programming s.entry.bytes.now }
{
    s.flags() % 2 == 1
}

// The address set, where it is this device that is meant.
fn address_set(meant: bool, address: u16) -> Decision
    ensures { result ≡ cond meant (made.stored (new_address address)) (made.refused 2) }
{
    if meant {
        stored(Store::Number {
            at: sheet::address_at(),
            width: 2,
            x: address as u64,
        })
    } else {
        refused(Refusal::NotForUs)
    }
}

// The device answering, where it is this one that is meant.
fn device_told(meant: bool, p: Pdu) -> Decision
    ensures { result ≡ cond meant (made.answered (answer.Plain p)) (made.refused 2) }
{
    if meant {
        answered(Answer::Plain(p))
    } else {
        refused(Refusal::NotForUs)
    }
}

// By programming mode.
#[tactic(auto, unfolding(crate::specs::Addresses::address_write_of))]
pub fn address_write(s: Sheet<'_>, address: u16) -> Decision
    ensures { result ≡ address_write_of s.entry.bytes.now address }
{
    address_set(in_programming(s), address)
}

#[tactic(auto, unfolding(crate::specs::Addresses::address_read_of))]
pub fn address_read(s: Sheet<'_>) -> Decision
    ensures { result ≡ address_read_of s.entry.bytes.now }
{
    device_told(in_programming(s), Pdu::IndividualAddressResponse)
}

// By serial number: the domain address that we send is 0.
#[tactic(auto, unfolding(crate::specs::Addresses::serial_read_of))]
pub fn serial_read(s: &[u8], asked: u64) -> Decision
    ensures { result ≡ serial_read_of s.now asked }
{
    device_told(
        asked == sheet::serial(s),
        Pdu::SerialNumberResponse {
            serial: asked,
            domain: 0,
        },
    )
}

#[tactic(auto, unfolding(crate::specs::Addresses::serial_write_of))]
pub fn serial_write(s: &[u8], asked: u64, address: u16) -> Decision
    ensures { result ≡ serial_write_of s.now asked address }
{
    address_set(asked == sheet::serial(s), address)
}

// What is answered for a type that the device has not.
const NO_TYPE: u8 = 63;

// The mask version is type 0; any other is denied under the later rules, and not for us under those before.
#[tactic(auto, unfolding(crate::specs::Addresses::descriptor_of))]
pub fn descriptor(s: &[u8], t: u8) -> Decision
    ensures { result ≡ descriptor_of s.now t }
{
    if t == 0 {
        answered(Answer::Number {
            pdu: Pdu::DeviceDescriptorResponse { t: 0 },
            width: 2,
            x: sheet::mask(s) as u64,
        })
    } else if sheet::rules_of(s) == LATER {
        denied(Pdu::DeviceDescriptorResponse { t: NO_TYPE })
    } else {
        refused(Refusal::NotForUs)
    }
}
