// Judging a request: what is decided about it, as a value made of numbers. Nothing is stored here.
#![tactic(auto)]

mod addresses;
mod decisions;
mod groups;
mod keys;
mod levels;
mod memory;
mod modes;
mod properties;
mod services;

ghost use Rattle.std.specs.Prelude.{◌≡◌, ℕ, true, List};
ghost use Rattle.sheet.specs.Rules.{Accepted};
ghost use Rattle.pdu.specs.Read.{read_pdu};
ghost use Rattle.judge.specs.Judge.{data_in, is_shut, reached_of, found_of};
ghost use Rattle.judge.specs.Refusal.{told};
ghost use Rattle.judge.specs.Unread.{Unread};

pub use decisions::DONE;
use decisions::{refused, refused_by};
pub use levels::Mode;
use levels::{WEAKEST, level_in};
use modes::{reach, reaches, takes};
use pdu::{Pdu, ReadRefusal, Service};
use services::decide;
use sheet::Sheet;

// A connection: open or closed, and the level as found.
#[repr(C)]
#[derive(Clone, Copy)]
pub struct Session {
    pub opened: bool,
    pub level: u8,
}

impl Session {
    ghost use Rattle.judge.specs.Session.{weakest};

    // One that was opened or closed anew, at the level with the fewest rights.
    pub fn anew(opened: bool) -> Self
        ensures { result ≡ record { opened = opened; level = weakest } }
    {
        Session {
            opened,
            level: WEAKEST,
        }
    }
}

// A request as it came and was read: the session that it meets, its mode and group address; what its code names, and what
// it reads as.
#[derive(Clone, Copy)]
pub struct Request {
    pub session: Session,
    pub mode: u8,
    pub group: u16,
    pub found: Option<Service>,
    pub parsed: Result<Pdu, ReadRefusal>,
}

// Who can reach a service.
#[derive(Clone, Copy)]
pub enum Reach {
    Multicast,
    Broadcast,
    PointToPoint,
    Connected,
    Never,
}

// What is done with a range of memory: read, written, or changed by bits, whose answer shows old ones.
#[derive(Clone, Copy)]
pub enum Access {
    Read,
    Write,
    Change,
}

// One run of bytes to be stored in the sheet.
#[derive(Clone, Copy)]
pub enum Store {
    Nothing,
    // the width low bytes of x
    Number { at: usize, width: usize, x: u64 },
    // so many zeros, then the request's data
    Data { zeros: usize, at: usize },
    // n bytes computed from those there by the request's AND and XOR bytes
    Bits { at: usize, n: usize },
    // n bytes b
    Fill { at: usize, n: usize, b: u8 },
}

// What becomes of the session.
#[derive(Clone, Copy)]
pub enum Turn {
    Stays,
    Level(u8),
    Closes,
}

// The answer: a PDU and where its data comes from.
#[derive(Clone, Copy)]
pub enum Answer {
    Silence,
    // no data
    Plain(Pdu),
    // the width low bytes of x
    Number { pdu: Pdu, width: usize, x: u64 },
    // n bytes of the sheet, as they stand after the stores
    Sheet { pdu: Pdu, at: usize, n: usize },
    // the request's data
    Echo(Pdu),
}

// What a request is refused by.
#[derive(Clone, Copy, PartialEq, Eq)]
pub enum Refusal {
    NotForUs = 2,
    // the answer buffer has fewer than 16 bytes
    Room = 3,
    // the sheet breaks a rule
    Bad = 4,
    Length = 5,
    Mode = 6,
    Unconnected = 7,
    Service = 8,
    OtherMode = 9,
    Fields = 10,
    // the negative answer is due
    Denied = 11,
    // none is due
    Silent = 12,
    Old = 14,
}

impl Refusal {
    ghost use Rattle.judge.specs.Refusal.{number_of};

    pub fn number(self) -> u8
        ensures { result ≡ number_of self }
    {
        self as u8
    }
}

impl From<sheet::Refused> for Refusal {
    ghost use Rattle.judge.specs.Refusal.{number_of};
    ghost use Rattle.sheet.specs.Refused.{number_of as sheet_number};

    ghost from_gives = { λ e r. number_of r ≡ sheet_number e };

    fn from(e: sheet::Refused) -> Refusal {
        match e {
            sheet::Refused::Bad => Refusal::Bad,
            sheet::Refused::Old => Refusal::Old,
        }
    }
}

// What is decided about a request. Its outcome stays a number, 0 and 1 beside those of the refusals: the definition `judge_by` and the
// theorems over histories go by it, and the reader's comes as one.
#[derive(Clone, Copy)]
pub struct Decision {
    pub outcome: u8,
    pub first: Store,
    pub second: Store,
    pub turn: Turn,
    pub answer: Answer,
}

// The data of a request that reads, and none of any other.
pub fn data_in(got: Result<Pdu, ReadRefusal>, apdu: &[u8]) -> &[u8]
    ensures { result.now ≡ data_in got apdu.now }
{
    let Ok(p) = got else {
        return &apdu[0..0];
    };
    pdu::data_of(p, apdu)
}

// Connected mode with no connection.
#[tactic(auto, unfolding(crate::specs::Judge::is_shut))]
fn is_shut(q: Session, mode: u8) -> bool
    ensures { result ≡ is_shut q mode }
{
    mode == Mode::Connected as u8 && !q.opened
}

// 8, then 9, then the reading: what a request of a service with that reach and with data d gets.
fn reached(s: Sheet<'_>, x: Request, d: &[u8], r: Reach) -> Decision
    ensures { (a : List ℕ) → x.parsed ≡ read_pdu a → d.now ≡ data_in x.parsed a → result ≡ reached_of s.entry.bytes.now x.session x.mode x.group a r }
{
    if !reaches(r) {
        return refused(Refusal::Service);
    }
    if !takes(r, x.mode) {
        return refused(Refusal::OtherMode);
    }
    let parsed = x.parsed;
    let Ok(p) = parsed else {
        return refused_by(pdu::outcome(parsed));
    };
    let session = x.session;
    decide(s, level_in(session, x.mode), x.group, d, p)
}

// What is decided about a request that nothing refused unread, with data d, by what its code names.
pub fn found(s: Sheet<'_>, x: Request, d: &[u8]) -> Decision
    ensures { (a : List ℕ) → x.parsed ≡ read_pdu a → d.now ≡ data_in x.parsed a → result ≡ found_of s.entry.bytes.now x.session x.mode x.group a x.found }
{
    let f = x.found;
    match f {
        Some(k) => reached(s, x, d, reach(sheet::rules_of(s.bytes), k)),
        None => refused(Refusal::Service),
    }
}

// What refuses a request before it is read: 3 for an answer buffer that is too short, then what the sheet is refused by, then
// 5, 6 and 7; room is the length of the buffer. A sheet that is known to be accepted is not judged again: `known` is a flag, since
// device::request_known has it as one, and a trace's player learns it as it runs.
pub fn refused_unread(
    room: usize,
    known: bool,
    s: &[u8],
    session: Session,
    mode: u8,
    apdu: &[u8],
) -> Result<(), Refusal>
    requires { known ≡ true → Accepted s.now }
    ensures { Unread room s.now session mode apdu.now (told result) }
{
    if room < 16 {
        return Err(Refusal::Room);
    }
    sheet::refusal_unless(known, s)?;
    if apdu.len() < 2 || 16 < apdu.len() {
        return Err(Refusal::Length);
    }
    if mode > Mode::Connected as u8 {
        return Err(Refusal::Mode);
    }
    if is_shut(session, mode) {
        return Err(Refusal::Unconnected);
    }
    Ok(())
}
