// The sheet kept through power cuts: two slots in a medium that keeps its bytes, what stands in each, and a save as pieces of work.
// Its C interface stands in `host`.
#![tactic(auto)]

mod choosing;
mod crc;
mod head;
mod parts;
mod refusal;
mod saving;
mod whole;

pub use choosing::{aim, newer};
pub use parts::{begin, end, more};
pub use refusal::Refusal;
pub use saving::next_work;
pub use whole::judge;

// The longest sheet, and where it stands in a slot.
const LONGEST: usize = 32768;

const SHEET_AT: usize = 64;

// The four structs have C's layout (include/kelindap_slots.h), in which a refusal is a number beside the values and 0 says none.

// Why a slot holds no sheet, or 0; and of a sheet its number, its place in the slot and its length.
#[repr(C)]
#[derive(Clone, Copy, Default)]
pub struct Slot {
    pub refusal: u8,
    pub number: u32,
    pub offset: usize,
    pub length: usize,
}

// A slot that is handed over in parts: why it is refused already, or 0; number, length and check sum as its head states them, how
// many bytes of the sheet are still to come, and the check sum of those that came.
#[repr(C)]
#[derive(Clone, Copy, Default)]
pub struct Judging {
    pub refusal: u8,
    pub number: u32,
    pub length: u32,
    pub left: u32,
    pub stated: u32,
    pub sum: u32,
}

// The slot that a save writes, 0 or 1, and the number that it gives.
#[repr(C)]
#[derive(Clone, Copy)]
pub struct Target {
    pub slot: u8,
    pub number: u32,
}

// A piece of work: why there is none, or 0; 0 none is left, 1 write the bytes of the buffer, 2 erase, 3 write the sheet; from which
// byte of the slot on, and how many.
#[repr(C)]
#[derive(Clone, Copy, Default)]
pub struct Work {
    pub refusal: u8,
    pub work: u8,
    pub at: usize,
    pub count: usize,
}
