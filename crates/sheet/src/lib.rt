// The device sheet: its rules, its entries and their bodies.
#![tactic(auto)]

ghost use Rattle.std.specs.Prelude.{◌≡◌};
ghost use Rattle.sheet.specs.Fault.{number_of as fault_number};
ghost use Rattle.sheet.specs.Refused.{number_of as refusal_number};

mod accepted;
mod entry_rules;
mod frame;
mod head;
mod layout;
mod lookup;
mod old;
mod ranges;
mod records;
mod table;
mod walk;

pub use accepted::Sheet;
pub use head::{LATER, address_at, flags_at, key, key_at, mask, rules_of, serial};
pub use lookup::{
    group, group_part, property, property_part, region, region_part, user_region, user_region_part,
};
pub use old::{convert, refusal, refusal_unless};
pub use records::count_at;
pub use walk::check;

// The kinds of entries, in the order in which they stand.
#[derive(Clone, Copy, PartialEq, Eq)]
pub enum Kind {
    Regions,
    Properties,
    Groups,
    Users,
}

impl Kind {
    pub const ALL: [Kind; 4] = [Kind::Regions, Kind::Properties, Kind::Groups, Kind::Users];
}

// What is wrong with a sheet: the first rule that it breaks, or that it is of edition 1.
#[derive(Clone, Copy, PartialEq, Eq)]
pub enum Fault {
    S1 = 1,
    S2 = 2,
    S3 = 3,
    S4 = 4,
    S5 = 5,
    S6 = 6,
    S7 = 7,
    S8 = 8,
    S9 = 9,
    Old = 14,
}

impl Fault {
    pub fn number(self) -> u8
        ensures { result ≡ fault_number self }
    {
        self as u8
    }
}

// What a call is refused by on a sheet that is not accepted.
#[derive(Clone, Copy, PartialEq, Eq)]
pub enum Refused {
    Bad = 4,
    Old = 14,
}

impl Refused {
    pub fn number(self) -> u8
        ensures { result ≡ refusal_number self }
    {
        self as u8
    }
}

// Where a value stands in the sheet, in numbers, as C is told: 0 and 0 if there is none.
#[repr(C)]
#[derive(Clone, Copy)]
pub struct Part {
    pub offset: usize,
    pub length: usize,
}

impl Part {
    const NOTHING: Part = Part {
        offset: 0,
        length: 0,
    };
}

// A memory of the sheet: its regions are the entries of a kind.
#[derive(Clone, Copy)]
pub enum Memory {
    Device,
    User,
}

// A run of sheet bytes that an address range is, with the levels that it stands under.
#[derive(Clone, Copy)]
pub struct Run {
    pub offset: usize,
    pub levels: u8,
}

// The fields of a property's entry, and where the entry stands.
#[derive(Clone, Copy)]
pub struct PropertyEntry {
    pub object: u8,
    pub id: u8,
    pub typ: u8,
    pub element: usize,
    pub maximum: usize,
    pub count: usize,
    pub offset: usize,
    pub levels: u8,
    pub place: usize,
}

// The fields of a group object's entry.
#[derive(Clone, Copy)]
pub struct GroupEntry {
    pub code: usize,
    pub flags: u8,
    pub offset: usize,
}
