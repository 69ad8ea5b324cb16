// Why a trace is not played.
ghost use Rattle.std.specs.Prelude.{◌≡◌};
ghost use Rattle.playback.specs.Refusal.{number_of};

// Of the trace: no head, too many events, a table that does not fit; of an event: a kind that there is not, a length of one that
// is no request, a last byte that is not 0, an offset that is not where the APDU before ended, an APDU past the end; bytes behind
// the last one. Of playing: no room in the log; marks, or room for the sheet, of another length; numbers that run out.
#[derive(Clone, Copy, PartialEq, Eq)]
pub enum Refusal {
    Short = 50,
    Many = 51,
    Table = 52,
    Kind = 53,
    Stray = 54,
    Zero = 55,
    Offset = 56,
    PastEnd = 57,
    LeftOver = 58,
    Log = 59,
    Marks = 70,
    Numbers = 71,
}

impl Refusal {
    // The number that C has for it.
    pub fn number(self) -> u8
        ensures { result ≡ number_of self }
    {
        self as u8
    }
}
