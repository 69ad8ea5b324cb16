// From the frame to the event: whose connection is whose, what is for this device, who is turned away, and the frame that answers.
// The definitions stand in specs/: Partners (who has which connection), Hearing (the event of a frame), Serving (what becomes of
// link, sheet and buffer), Net (histories of frames); Due (what a frame must be heard as, in plain words); Whose, Granted (by what
// right a frame changed a byte), Unlearned, Runs and Demand1 (what the theorems say of them).
#![tactic(auto)]

mod answering;
mod hearing;
mod places;
mod serving;

ghost use Rattle.std.specs.Prelude.{◌≡◌};

use device::{Changed, Sessions};
pub use hearing::{heard, own_of};
pub use serving::serve;

// The sessions of connections 0 and 1, and the individual address that connected last on each: its partner while its session is open.
#[repr(C)]
#[derive(Clone, Copy)]
pub struct Link {
    pub sessions: Sessions,
    pub first: u16,
    pub second: u16,
}

// Why a frame that reads, or a buffer, is no event.
#[derive(Clone, Copy, PartialEq, Eq)]
pub enum Refusal {
    // for another device
    Elsewhere = 60,
    // connected data of a stranger
    Stranger = 61,
    // a connect, with both connections taken
    Taken = 62,
    // a disconnect by a stranger
    NotConnected = 63,
    // a buffer without room for the longest answer
    Room = 64,
    // from this device to itself alone
    Itself = 65,
}

impl Refusal {
    ghost use Rattle.link.specs.Refusal.{number_of};

    // The number by which C and the documents know it.
    pub fn number(self) -> u8
        ensures { result ≡ number_of self }
    {
        self as u8
    }
}

// What a frame is to this device: a request in a mode, on a connection if connected, to a destination; a connect or disconnect
// of a connection; or nothing, with the number of why, and the connection of the partner whose frame transport alone deals with.
// Connections and numbers are as C and the theorems have them: 255 is no connection, and a number is one of cemi's refusals or of `Refusal`.
#[derive(Clone, Copy)]
pub enum Arrived {
    Request {
        mode: u8,
        connection: u8,
        group: u16,
    },
    Connect(u8),
    Disconnect(u8),
    Nothing {
        number: u8,
        connection: u8,
    },
}

// What serving a frame gave: 0 and the event's outcome, or the number of why there is none; its connection; the count of bytes of
// the answering frame; which parts of the sheet were stored; the link afterwards. Connection and numbers are as C has them.
#[derive(Clone, Copy)]
pub struct Served {
    pub number: u8,
    pub outcome: u8,
    pub connection: u8,
    pub count: u8,
    pub changed: Changed,
    pub link: Link,
}
