// Why a slot holds no sheet, and why there is no piece of work.
ghost use Rattle.std.specs.Prelude.{◌≡◌};
ghost use Rattle.slots.specs.Refusal.{number_of};
ghost use Rattle.slots.specs.Slot.{bad};
ghost use Rattle.slots.specs.Parts.{barred};
ghost use Rattle.slots.specs.Saving.{refused};

use crate::{Judging, Slot, Work};

#[derive(Clone, Copy, PartialEq, Eq)]
pub enum Refusal {
    Short = 80,
    Unmarked = 81,
    Length = 82,
    Unread = 83,
    Sum = 84,
    Buffer = 85,
    NoRoom = 86,
}

impl Refusal {
    // The number that C has for it.
    pub fn number(self) -> u8
        ensures { result ≡ number_of self }
    {
        self as u8
    }
}

// One for each of C's structs that can be refused: their other fields differ.
impl From<Refusal> for Slot {
    ghost from_gives = { λ r s. s ≡ bad (number_of r) };

    fn from(r: Refusal) -> Slot {
        Slot {
            refusal: r.number(),
            ..Slot::default()
        }
    }
}

impl From<Refusal> for Judging {
    ghost from_gives = { λ r j. j ≡ barred (number_of r) };

    fn from(r: Refusal) -> Judging {
        Judging {
            refusal: r.number(),
            ..Judging::default()
        }
    }
}

impl From<Refusal> for Work {
    ghost from_gives = { λ r w. w ≡ refused (number_of r) };

    fn from(r: Refusal) -> Work {
        Work {
            refusal: r.number(),
            ..Work::default()
        }
    }
}
