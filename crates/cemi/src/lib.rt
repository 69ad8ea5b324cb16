// cEMI frames, L_Data.req and L_Data.ind, standard frames only: read, understood, written.
// The definitions stand in specs/: Layout (the table of fields), Read, Meaning, Write.
#![tactic(auto)]

ghost use Rattle.std.specs.Prelude.{◌≡◌};

mod layout;
mod parts;
mod reading;
mod transport;
mod writing;

pub use parts::{info, tpdu};
pub use reading::read;
pub use transport::meant;
pub use writing::write;

// The fields of a frame that its writer chooses; the message code is a byte and no enum, since C lends any.
#[derive(Clone, Copy)]
pub struct Fields {
    pub code: u8,
    pub control1: u8,
    pub control2: u8,
    pub source: u16,
    pub destination: u16,
    pub transport: u8,
}

// A frame that reads: its fields, the two low bits of octet 6, the length of the additional information, the length byte.
#[derive(Clone, Copy)]
pub struct Frame {
    pub fields: Fields,
    pub low: u8,
    pub info: u8,
    pub stated: u8,
}

// Why bytes are no frame that reads.
#[derive(Clone, Copy, PartialEq, Eq)]
pub enum ReadRefusal {
    // fewer bytes than fields
    Short = 40,
    // another message code
    Code = 41,
    // no standard frame
    Extended = 42,
    // the length byte does not fit the bytes
    Length = 43,
}

impl ReadRefusal {
    ghost use Rattle.cemi.specs.Refusal.{read_number};

    // The number by which C and the documents know it.
    pub fn number(self) -> u8
        ensures { result ≡ read_number self }
    {
        self as u8
    }
}

// What a frame means: data in a mode, by the number that the device's call takes, a connect, a disconnect.
#[derive(Clone, Copy)]
pub enum Meaning {
    Data(u8),
    Connect,
    Disconnect,
}

// Why a frame that reads means nothing to a device.
#[derive(Clone, Copy, PartialEq, Eq)]
pub enum NoMeaning {
    // a transport control that is not used here
    Transport = 44,
    // an acknowledgement
    Acknowledgement = 45,
}

impl NoMeaning {
    ghost use Rattle.cemi.specs.Refusal.{none_number};

    // The number by which C and the documents know it.
    pub fn number(self) -> u8
        ensures { result ≡ none_number self }
    {
        self as u8
    }
}

// Why a frame is not written.
#[derive(Clone, Copy, PartialEq, Eq)]
pub enum WriteRefusal {
    // the buffer is too short
    Room = 46,
    // no frame that reads has these fields
    Fields = 47,
}

impl WriteRefusal {
    ghost use Rattle.cemi.specs.Refusal.{write_number};

    // The number by which C and the documents know it.
    pub fn number(self) -> u8
        ensures { result ≡ write_number self }
    {
        self as u8
    }
}
