// An entry of each kind: taken from its place, and written there again, field by field (docs/SHEET.md).
ghost use Rattle.std.specs.Prelude.{◌≡◌, ◌+◌, ◌≤◌, length, ℕ, List};
ghost use Rattle.parts.specs.Records.{IsRegion, IsProperty, IsGroup, no_region, no_property, no_group};
ghost use Rattle.parts.specs.Again.{bit_of, type_of, levels_of, IsAt, WholeRegion, WholeProperty, WholeGroup, Restores};

use crate::{Group, Property, Region};
use octets::{byte, word};

// The longest sheet stays a clause of `read`: places are reckoned from it, and the bytes are anybody's slice.
// An entry of a kind, of so many bytes, and one with no fields set.
pub trait Entry: Copy {
    ghost SIZE: { ℕ };

    ghost NONE: { Self };

    // It has the fields of the entry at a place; and that entry has nothing else.
    ghost is: { Self → List ℕ → ℕ → Type 0 };

    ghost whole: { Self → ℕ → List ℕ → Type 0 };

    const SIZE: usize;

    const NONE: Self;

    fn read(sheet: &[u8], at: usize) -> Self
        requires { (at + SIZE ≤ length sheet.now) × (length sheet.now ≤ 16384) }
        ensures { is result sheet.now at };

    fn write(self, sheet: &mut [u8], at: usize)
        requires { at + SIZE ≤ length sheet.old }
        ensures { Restores (whole self at) sheet.old sheet.new at (at + SIZE) };
}

// The number x in so many bytes from a place on.
pub fn write_number(sheet: &mut [u8], at: usize, width: usize, x: u64)
    requires { (at + width ≤ length sheet.old) × (width ≤ 6) }
    ensures { Restores (IsAt at width x) sheet.old sheet.new at (at + width) }
{
    octets::put(sheet, at, width, x);
}

// The level for reading in the high four bits, that for writing in the low.
pub fn levels_byte(read: u8, write: u8) -> u8
    ensures { result ≡ levels_of read write }
{
    read % 16 * 16 + write % 16
}

// A bit of that weight, where it is set.
pub fn bit(set: bool, weight: u8) -> u8
    ensures { (result ≡ bit_of set weight) × (result ≤ weight) }
{
    if set { weight } else { 0 }
}

// The type of a property, with bit 7 for a writable one.
pub fn type_byte(property: Property) -> u8
    ensures { result ≡ type_of property }
{
    property.typ % 128 + bit(property.writable, 128)
}

impl Entry for Region {
    ghost SIZE = { 8 };

    ghost NONE = { no_region };

    ghost is = { IsRegion };

    ghost whole = { WholeRegion };

    const SIZE: usize = 8;

    const NONE: Self = Region {
        address: 0,
        length: 0,
        offset: 0,
        read: 0,
        write: 0,
    };

    fn read(sheet: &[u8], at: usize) -> Self {
        let levels = byte(sheet, at + 6);
        Region {
            address: word(sheet, at),
            length: word(sheet, at + 2),
            offset: word(sheet, at + 4),
            read: levels / 16,
            write: levels % 16,
        }
    }

    fn write(self, sheet: &mut [u8], at: usize) {
        write_number(sheet, at, 2, self.address as u64);
        write_number(sheet, at + 2, 2, self.length as u64);
        write_number(sheet, at + 4, 2, self.offset as u64);
        write_number(sheet, at + 6, 1, levels_byte(self.read, self.write) as u64);
        write_number(sheet, at + 7, 1, 0);
    }
}

// Bit 7 of the type: it can be written.
impl Entry for Property {
    ghost SIZE = { 12 };

    ghost NONE = { no_property };

    ghost is = { IsProperty };

    ghost whole = { WholeProperty };

    const SIZE: usize = 12;

    const NONE: Self = Property {
        object: 0,
        id: 0,
        writable: false,
        typ: 0,
        size: 0,
        maximum: 0,
        count: 0,
        offset: 0,
        read: 0,
        write: 0,
    };

    fn read(sheet: &[u8], at: usize) -> Self {
        let typ = byte(sheet, at + 2);
        let levels = byte(sheet, at + 10);
        Property {
            object: byte(sheet, at),
            id: byte(sheet, at + 1),
            writable: typ / 128 == 1,
            typ: typ % 128,
            size: byte(sheet, at + 3),
            maximum: word(sheet, at + 4),
            count: word(sheet, at + 6),
            offset: word(sheet, at + 8),
            read: levels / 16,
            write: levels % 16,
        }
    }

    fn write(self, sheet: &mut [u8], at: usize) {
        write_number(sheet, at, 1, self.object as u64);
        write_number(sheet, at + 1, 1, self.id as u64);
        write_number(sheet, at + 2, 1, type_byte(self) as u64);
        write_number(sheet, at + 3, 1, self.size as u64);
        write_number(sheet, at + 4, 2, self.maximum as u64);
        write_number(sheet, at + 6, 2, self.count as u64);
        write_number(sheet, at + 8, 2, self.offset as u64);
        write_number(sheet, at + 10, 1, levels_byte(self.read, self.write) as u64);
        write_number(sheet, at + 11, 1, 0);
    }
}

// The flags: 1 read, 2 write, 4 take a Response.
impl Entry for Group {
    ghost SIZE = { 8 };

    ghost NONE = { no_group };

    ghost is = { IsGroup };

    ghost whole = { WholeGroup };

    const SIZE: usize = 8;

    const NONE: Self = Group {
        address: 0,
        code: 0,
        read: false,
        write: false,
        response: false,
        offset: 0,
    };

    fn read(sheet: &[u8], at: usize) -> Self {
        let flags = byte(sheet, at + 3);
        Group {
            address: word(sheet, at),
            code: byte(sheet, at + 2),
            read: flags % 2 == 1,
            write: flags / 2 % 2 == 1,
            response: flags / 4 % 2 == 1,
            offset: word(sheet, at + 4),
        }
    }

    fn write(self, sheet: &mut [u8], at: usize) {
        let flags = bit(self.read, 1) + bit(self.write, 2) + bit(self.response, 4);
        write_number(sheet, at, 2, self.address as u64);
        write_number(sheet, at + 2, 1, self.code as u64);
        write_number(sheet, at + 3, 1, flags as u64);
        write_number(sheet, at + 4, 2, self.offset as u64);
        write_number(sheet, at + 6, 2, 0);
    }
}
