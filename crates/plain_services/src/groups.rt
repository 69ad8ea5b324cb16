// Group values: read, Response and write.
ghost use Rattle.std.specs.Prelude.{cond, [], length};
ghost use Rattle.sheet.specs.Kind.{groups};
ghost use Rattle.sheet.specs.Lookup.{index_of};
ghost use Rattle.judge.specs.Groups.{group_read_of, group_put_of};
ghost use Rattle.plain_services.specs.Found.{Finds};
ghost use Rattle.plain_services.specs.Steps.{Held, Serves};

use crate::bodies::with_data;
use crate::replies::{answered, done, refused};
use crate::{Refusal, Reply};
use parts::Parts;
use pdu::Pdu;

// `Held` stays a clause: a service changes the parts, and what it gives holds them changed; as a fact of the type it would be shown at each field.
// The number of the group object with that address.
fn find_group(parts: Parts, address: u16) -> Option<usize>
    requires { Held parts }
    ensures { Finds parts parts.counts.groups (λ s. index_of s groups address) result }
{
    for i in 0..parts.counts.groups {
        if parts.groups[i].address == address {
            return Some(i);
        }
    }
    None
}

// The value of a group object that may be read: six bits in the PDU, or the bytes behind it.
pub fn group_read(parts: Parts, address: u16) -> Reply
    requires { Held parts }
    ensures { Serves parts [] (λ s. group_read_of s address) result }
{
    let Some(i) = find_group(parts, address) else {
        return refused(parts, Refusal::NotForUs);
    };
    let group = parts.groups[i];
    if !group.read {
        return refused(parts, Refusal::NotForUs);
    }
    let at = group.offset as usize;
    let bodies = parts.bodies;
    if group.code == 0 {
        return answered(parts, Pdu::GroupValueResponse { v: bodies[at] }, &[]);
    }
    let end = at + group.code as usize;
    answered(parts, Pdu::GroupValueResponse { v: 0 }, &bodies[at..end])
}

// A new value, six bits or bytes, for a group object that takes it: what another device answered by the flag for a Response, else by
// that for writing. 10 where the length is another. `answer` stays a bool: it has the two values that the two PDUs are.
pub fn group_put(parts: Parts, answer: bool, address: u16, v: u8, d: &[u8]) -> Reply
    requires { Held parts }
    ensures { Serves parts d.now (λ s. group_put_of (cond answer 4 2) s address v (length d.now)) result }
{
    let Some(i) = find_group(parts, address) else {
        return refused(parts, Refusal::NotForUs);
    };
    let group = parts.groups[i];
    let takes = if answer { group.response } else { group.write };
    if !takes {
        return refused(parts, Refusal::NotForUs);
    }
    if d.len() != group.code as usize {
        return refused(parts, Refusal::Fields);
    }
    let at = group.offset as usize;
    if group.code == 0 {
        return done(with_data(parts, at, &[v]));
    }
    done(with_data(parts, at, d))
}
