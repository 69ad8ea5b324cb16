// Group values.
ghost use Rattle.std.specs.Prelude.{◌≡◌};
ghost use Rattle.judge.specs.Groups.{has_flag, flag_of, Flagged, value_of, put_value, group_read_of, group_put_of};

use crate::decisions::{answered, refused, stored};
use crate::{Answer, Decision, Refusal, Store};
use octets::byte;
use pdu::Pdu;
use sheet::{GroupEntry, Kind, Sheet};

// The flags of a group object.
#[derive(Clone, Copy)]
pub enum Flag {
    Read = 1,
    Write = 2,
    Response = 4,
}

impl Flag {
    // It is among these.
    fn is_in(self, flags: u8) -> bool
        ensures { result ≡ has_flag (flag_of self) flags }
    {
        flags / self as u8 % 2 == 1
    }
}

// The value of a group object of a length code whose body starts at a place: six bits in the PDU, or the body after it.
#[tactic(auto, unfolding(crate::specs::Groups::value_of))]
fn value(s: &[u8], code: usize, at: usize) -> Decision
    ensures { result ≡ value_of s.now code at }
{
    answered(if code == 0 {
        Answer::Plain(Pdu::GroupValueResponse { v: byte(s, at) })
    } else {
        Answer::Sheet {
            pdu: Pdu::GroupValueResponse { v: 0 },
            at,
            n: code,
        }
    })
}

// A new value: six bits v, or n bytes of data; 10 where that doesn't suit the length code.
#[tactic(auto, unfolding(crate::specs::Groups::put_value))]
fn put_value(code: usize, at: usize, v: u8, n: usize) -> Decision
    ensures { result ≡ put_value code at v n }
{
    if n != code {
        return refused(Refusal::Fields);
    }
    stored(if code == 0 {
        Store::Number {
            at,
            width: 1,
            x: v as u64,
        }
    } else {
        Store::Data { zeros: 0, at }
    })
}

// The group object with an address, if it has the flag.
fn flagged(flag: Flag, s: Sheet<'_>, address: u16) -> Option<GroupEntry>
    ensures { Flagged (flag_of flag) s.entry.bytes.now address result }
{
    let i = s.find(Kind::Groups, address as usize)?;
    let e = s.group(i);
    if flag.is_in(e.flags) { Some(e) } else { None }
}

// The value of a group object with the read flag.
pub fn group_read(s: Sheet<'_>, address: u16) -> Decision
    ensures { result ≡ group_read_of s.entry.bytes.now address }
{
    let Some(e) = flagged(Flag::Read, s, address) else {
        return refused(Refusal::NotForUs);
    };
    value(s.bytes, e.code, e.offset)
}

// GroupValue_Write and GroupValue_Response, which ask for different flags: six bits v, or n bytes of data.
pub fn group_put(flag: Flag, s: Sheet<'_>, address: u16, v: u8, n: usize) -> Decision
    ensures { result ≡ group_put_of (flag_of flag) s.entry.bytes.now address v n }
{
    let Some(e) = flagged(flag, s, address) else {
        return refused(Refusal::NotForUs);
    };
    put_value(e.code, e.offset, v, n)
}
