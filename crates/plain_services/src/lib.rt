// The services of the plain engine: what each gives and leaves, on the parts of a sheet.
#![tactic(auto)]

ghost use Rattle.std.specs.Prelude.{◌≡◌};

mod addresses;
mod bodies;
mod groups;
mod keys;
mod memory;
mod properties;
mod ranges;
mod replies;

pub use addresses::{address_read, address_write, descriptor, serial_read, serial_write};
pub use groups::{group_put, group_read};
use judge::Turn;
pub use keys::{authorize, key_write, restart};
pub use memory::{bit_write, memory_read, memory_write};
use parts::{Parts, Region};
use pdu::Pdu;
pub use properties::{description, property_read, property_write};
pub use replies::refused;

// What a request is refused by.
#[derive(Clone, Copy, PartialEq, Eq)]
pub enum Refusal {
    NotForUs = 2,
    // the answer buffer has fewer than 16 bytes
    Room = 3,
    // the sheet breaks a rule
    Bad = 4,
    Length = 5,
    Mode = 6,
    Unconnected = 7,
    Service = 8,
    OtherMode = 9,
    Fields = 10,
    // the negative answer is sent
    Denied = 11,
    // nothing is sent
    Silent = 12,
    // the sheet is of edition 1
    Old = 14,
}

impl Refusal {
    ghost use Rattle.plain_services.specs.Refusal.{number_of};

    pub fn number(self) -> u8
        ensures { result ≡ number_of self }
    {
        self as u8
    }
}

// What came of a request: it is answered, it is done without an answer, or it is refused or ignored.
#[derive(Clone, Copy)]
pub enum Outcome {
    Answered,
    Done,
    Refused(Refusal),
}

impl Outcome {
    ghost use Rattle.plain_services.specs.Outcome.{number_of};

    pub fn number(self) -> u8
        ensures { result ≡ number_of self }
    {
        match self {
            Outcome::Answered => 0,
            Outcome::Done => 1,
            Outcome::Refused(refusal) => refusal.number(),
        }
    }
}

// What a service gives: the outcome, the parts afterwards, what becomes of the session, the PDU that is sent, and its data: 14 bytes and how
// many of them count, since there is no heap.
#[derive(Clone, Copy)]
pub struct Reply {
    pub outcome: Outcome,
    pub parts: Parts,
    pub turn: Turn,
    pub sent: Option<Pdu>,
    pub bytes: [u8; 14],
    pub length: usize,
}

// The regions of one memory: the array and how many of its places count, as in Parts. A slice of an array behind a reference was tried: the
// length of the array is not known to the proof there.
#[derive(Clone, Copy)]
pub struct Area {
    pub regions: [Region; 16],
    pub count: usize,
}
