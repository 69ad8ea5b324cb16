// Which of two slots is the newer, and where the next save goes.
ghost use Rattle.std.specs.Prelude.{◌≡◌, ◌+◌, ◌≤◌, ◌<◌};
ghost use Rattle.slots.specs.Slot.{newer_of, target_of, next_of};
ghost use Rattle.slots.specs.Choosing.{which_flat};

use crate::{Slot, Target};

// One of two slots.
#[derive(Clone, Copy)]
enum Which {
    First = 0,
    Second = 1,
}

// The number after one; the last is followed by 0.
#[tactic(auto, unfolding(crate::specs::Slot::next_of))]
fn next(n: u32) -> u32
    ensures { result ≡ next_of n }
{
    n.wrapping_add(1)
}

// The slot that holds the newer sheet, if one holds any.
#[tactic(auto, unfolding(crate::specs::Slot::newer_of))]
fn newest(a: Slot, b: Slot) -> Option<Which>
    ensures { which_flat result ≡ newer_of a b }
{
    if a.refusal != 0 && b.refusal != 0 {
        None
    } else if a.refusal != 0 {
        Some(Which::Second)
    } else if b.refusal == 0 && b.number == next(a.number) {
        Some(Which::Second)
    } else {
        Some(Which::First)
    }
}

// Which of two slots holds the newer sheet, 0 or 1, or 2 where neither holds one, as C numbers them.
pub fn newer(a: Slot, b: Slot) -> u8
    ensures { result ≡ newer_of a b }
{
    match newest(a, b) {
        Some(at) => at as u8,
        None => 2,
    }
}

// Where the next save goes: never to the slot that holds the newer sheet.
#[tactic(auto, unfolding(crate::specs::Slot::target_of))]
pub fn aim(a: Slot, b: Slot) -> Target
    ensures { result ≡ target_of a b }
{
    match newest(a, b) {
        Some(Which::First) => Target {
            slot: 1,
            number: next(a.number),
        },
        Some(Which::Second) => Target {
            slot: 0,
            number: next(b.number),
        },
        None => Target { slot: 0, number: 0 },
    }
}
