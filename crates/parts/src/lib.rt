// A sheet as plain records: taken apart, and written again.
#![tactic(auto)]

mod entries;
mod front;
mod lists;
mod whole;

pub use entries::{levels_byte, type_byte};
pub use whole::{same, take_apart, write_again};

// A region of memory or of user memory. Here and in a property, `read` and `write` are levels: those up to which it may be read and
// written.
#[derive(Clone, Copy)]
pub struct Region {
    pub address: u16,
    pub length: u16,
    pub offset: u16,
    pub read: u8,
    pub write: u8,
}

// A property: whether it can be written, its type, the bytes of an element, how many elements there can be and how many are counted.
#[derive(Clone, Copy)]
pub struct Property {
    pub object: u8,
    pub id: u8,
    pub writable: bool,
    pub typ: u8,
    pub size: u8,
    pub maximum: u16,
    pub count: u16,
    pub offset: u16,
    pub read: u8,
    pub write: u8,
}

// A group object: the length code, and whether it may be read, written, and changed by a Response.
#[derive(Clone, Copy)]
pub struct Group {
    pub address: u16,
    pub code: u8,
    pub read: bool,
    pub write: bool,
    pub response: bool,
    pub offset: u16,
}

// How many entries of each kind there are.
#[derive(Clone, Copy)]
pub struct Counts {
    pub regions: usize,
    pub properties: usize,
    pub groups: usize,
    pub users: usize,
}

// Where the properties begin, the group objects, the regions of user memory, and the bodies. The regions of memory begin at 32.
#[derive(Clone, Copy)]
pub struct Starts {
    pub properties: usize,
    pub groups: usize,
    pub users: usize,
    pub bodies: usize,
}

// The serial number, the mask version, whether programming mode and verify are on, the individual address, the keys of levels 0,
// 1 and 2, and the number of the rules.
#[derive(Clone, Copy)]
pub struct Head {
    pub serial: u64,
    pub mask: u16,
    pub programming: bool,
    pub verify: bool,
    pub address: u16,
    pub keys: [u32; 3],
    pub rules: u8,
}

// A whole sheet and its length, in arrays of fixed length with counts beside them: there is no heap. The bodies stand at the places that the entries' offsets name, which are those of the sheet.
#[derive(Clone, Copy)]
pub struct Parts {
    pub head: Head,
    pub counts: Counts,
    pub regions: [Region; 16],
    pub properties: [Property; 64],
    pub groups: [Group; 64],
    pub users: [Region; 16],
    pub bodies: [u8; 16384],
    pub length: usize,
}
