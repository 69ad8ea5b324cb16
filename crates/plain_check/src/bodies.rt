// S9, of the bodies; and S6 to S9 over all entries.
ghost use Rattle.std.specs.Prelude.{◌<◌};
ghost use Rattle.plain_check.specs.Kind.{number_of};
ghost use Rattle.sheet.specs.Plain.{S6, S7, S8, S9};
ghost use Rattle.plain_check.specs.Says.{Says};
ghost use Rattle.plain_check.specs.Tests.{Starts, Long, BodyAt};

use crate::Kind;
use crate::entries::keeps_its_rule;
use crate::places::{count, place, word};
use octets::byte;

// That a place is below 13,000 stays a clause, for sums that fit: it is a number on the way, and no value that is kept.
// Where the body of the entry of a kind that stands at `at` starts.
fn start(s: &[u8], kind: Kind, at: usize) -> usize
    requires { at < 13000 }
    ensures { Starts s.now (number_of kind) at result }
{
    match kind {
        Kind::Properties => word(s, at + 8),
        Kind::Regions | Kind::Groups | Kind::Users => word(s, at + 4),
    }
}

// How long it is: as long as its region; size times maximum of a property; as the code of a group object says, and 1 where that is 0.
fn length(s: &[u8], kind: Kind, at: usize) -> usize
    requires { at < 13000 }
    ensures { Long s.now (number_of kind) at result }
{
    match kind {
        Kind::Properties => byte(s, at + 3) as usize * word(s, at + 4),
        Kind::Groups => byte(s, at + 2).max(1) as usize,
        Kind::Regions | Kind::Users => word(s, at + 2),
    }
}

// S9: a body starts where the one before ended; that of a group object of code 0 is a byte below 64.
fn keeps_9(s: &[u8], kind: Kind, at: usize, end: usize) -> bool
    requires { at < 13000 }
    ensures { Says (BodyAt s.now (number_of kind) at end) result }
{
    start(s, kind, at) == end && (kind != Kind::Groups || 1 <= byte(s, at + 2) || byte(s, end) < 64)
}

// S6 to S9: every entry keeps the rule of its kind, and its body S9. The first body starts where head and entries end; the last body, and
// where there is none head and entries, ends the sheet.
pub fn keeps_6_to_9(s: &[u8]) -> bool
    ensures { Says (S6 s.now × S7 s.now × S8 s.now × S9 s.now) result }
{
    let mut end = place(s, Kind::Users, count(s, Kind::Users));
    for kind in Kind::ALL {
        for i in 0..count(s, kind) {
            let at = place(s, kind, i);
            if !keeps_its_rule(s, kind, i, at) || !keeps_9(s, kind, at, end) {
                return false;
            }
            end = start(s, kind, at) + length(s, kind, at);
        }
    }
    end == s.len()
}
