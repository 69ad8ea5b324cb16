// A slot that lies in memory.
ghost use Rattle.std.specs.Prelude.{◌≡◌, ◌+◌, ◌≤◌, ◌<◌, length};
ghost use Rattle.slots.specs.Slot.{slot_of};

use crate::parts::{begin, end, more};
use crate::{SHEET_AT, Slot};

// What a slot holds: refused, or a sheet.
#[tactic(auto, using(crate::proofs::promises::Pieced::judged_short, crate::proofs::promises::Pieced::judged_whole))]
pub fn judge(s: &[u8]) -> Slot
    ensures { result ≡ slot_of s.now }
{
    let front = begin(s, s.len());
    if s.len() < SHEET_AT {
        return end(front);
    }
    end(more(front, &s[SHEET_AT..]))
}
