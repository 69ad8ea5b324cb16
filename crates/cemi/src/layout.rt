// Where the parts and fields of a frame stand, by the names of specs/.

pub const REQUEST: u8 = 0x11;

pub const INDICATION: u8 = 0x29;

pub const CODE: usize = 0;

pub const INFO_LENGTH: usize = 1;

pub const INFO: usize = 2;

// The fields after the additional information.
pub const CONTROL1: usize = 0;

pub const CONTROL2: usize = 1;

pub const SOURCE: usize = 2;

pub const DESTINATION: usize = 4;

pub const STATED: usize = 6;

pub const SIZE: usize = 7;
