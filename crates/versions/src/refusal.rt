// Why a call on a store is refused.
ghost use Rattle.std.specs.Prelude.{◌≡◌};
ghost use Rattle.sheet.specs.Refused.{number_of as sheet_number};
ghost use Rattle.versions.specs.Refusal.{number_of};

// A sheet that is not accepted or is of edition 1, a bad store, no number, place or room left; a number that is not kept, no
// session at level 0, other entries, a count above its maximum.
#[derive(Clone, Copy, PartialEq, Eq)]
pub enum Refusal {
    Bad = 4,
    Old = 14,
    Store = 30,
    Number = 31,
    Place = 32,
    Room = 33,
    NotKept = 34,
    NotAtZero = 35,
    OtherEntries = 36,
    HighCount = 37,
}

impl Refusal {
    // The number that C has for it.
    pub fn number(self) -> u8
        ensures { result ≡ number_of self }
    {
        self as u8
    }
}

impl From<sheet::Refused> for Refusal {
    ghost from_gives = { λ r e. number_of e ≡ sheet_number r };

    fn from(refused: sheet::Refused) -> Refusal {
        match refused {
            sheet::Refused::Bad => Refusal::Bad,
            sheet::Refused::Old => Refusal::Old,
        }
    }
}
