// A slot judged in parts: its first 64 bytes, then the sheet in runs of any length.
ghost use Rattle.std.specs.Prelude.{◌≡◌, ◌+◌, ◌≤◌, ◌<◌, ◌≢◌, length};
ghost use Rattle.slots.specs.Parts.{begin_of, more_of, end_of};
ghost use Rattle.slots.specs.Refusal.{front_flat, slot_flat};

use crate::crc::{ONES, update};
use crate::{Judging, LONGEST, Refusal, SHEET_AT, Slot};
use octets::number;

// KELIND in ASCII.
const MARK: u64 = 82761004699204;

// What a slot's front says of its sheet.
#[tactic(auto, unfolding(crate::specs::Parts::begin_of, crate::specs::Slot::marked))]
fn front_of(front: &[u8], room: usize) -> Result<Judging, Refusal>
    ensures { front_flat result ≡ begin_of front.now room }
{
    if room < SHEET_AT || front.len() < SHEET_AT {
        return Err(Refusal::Short);
    }
    if number(front, 0, 6) != MARK {
        return Err(Refusal::Unmarked);
    }
    let long = number(front, 40, 4) as u32;
    if LONGEST < long as usize || room < SHEET_AT + long as usize {
        return Err(Refusal::Length);
    }
    Ok(Judging {
        refusal: 0,
        number: number(front, 36, 4) as u32,
        length: long,
        left: long,
        stated: number(front, 32, 4) as u32,
        sum: update(ONES, &front[36..64]),
    })
}

// The front of a slot with this room: refused, or a sheet is to come.
pub fn begin(front: &[u8], room: usize) -> Judging
    ensures { result ≡ begin_of front.now room }
{
    front_of(front, room).unwrap_or_else(Judging::from)
}

// The next bytes of the slot, of which those behind the sheet are passed over.
#[tactic(auto, unfolding(crate::specs::Parts::more_of))]
pub fn more(j: Judging, s: &[u8]) -> Judging
    ensures { result ≡ more_of j s.now }
{
    let n = s.len().min(j.left as usize);
    Judging {
        left: j.left - n as u32,
        sum: update(j.sum, &s[..n]),
        ..j
    }
}

// The sheet that a slot holds, of which no part was refused.
#[tactic(auto, unfolding(crate::specs::Parts::end_of))]
fn sheet_of(j: Judging) -> Result<Slot, Refusal>
    requires { j.refusal ≡ 0 }
    ensures { slot_flat result ≡ end_of j }
{
    if j.left != 0 {
        return Err(Refusal::Unread);
    }
    if j.stated != ONES - j.sum {
        return Err(Refusal::Sum);
    }
    Ok(Slot {
        refusal: 0,
        number: j.number,
        offset: SHEET_AT,
        length: j.length as usize,
    })
}

// What the slot holds. C may hand over a refusal of any number, so it stays one.
#[tactic(auto, unfolding(crate::specs::Parts::end_of))]
pub fn end(j: Judging) -> Slot
    ensures { result ≡ end_of j }
{
    if j.refusal != 0 {
        return Slot {
            refusal: j.refusal,
            ..Slot::default()
        };
    }
    sheet_of(j).unwrap_or_else(Slot::from)
}
