// The names of a sheet's fields: where each stands, by 01's layout.
use crate::draft::{Draft, Kind};
use lines::{number, parted};

// A field of one byte or of two.
#[derive(Clone, Copy)]
pub(crate) enum Field {
    Byte(usize),
    Word(usize),
}

use Field::{Byte, Word};

impl Field {
    // The field as it stands so much further on.
    fn behind(self, from: usize) -> Option<Field> {
        match self {
            Byte(at) => from.checked_add(at).map(Byte),
            Word(at) => from.checked_add(at).map(Word),
        }
    }
}

fn head(name: &[u8]) -> Option<Field> {
    match name {
        b"edition" => Some(Byte(0)),
        b"regions" => Some(Byte(1)),
        b"properties" => Some(Byte(2)),
        b"groups" => Some(Byte(3)),
        b"stated" => Some(Word(4)),
        b"flags" => Some(Byte(14)),
        b"zero15" => Some(Byte(15)),
        b"rules" => Some(Byte(30)),
        b"zero31" => Some(Byte(31)),
        _ => None,
    }
}

fn of_region(name: &[u8]) -> Option<Field> {
    match name {
        b"address" => Some(Word(0)),
        b"length" => Some(Word(2)),
        b"offset" => Some(Word(4)),
        b"levels" => Some(Byte(6)),
        b"zero7" => Some(Byte(7)),
        _ => None,
    }
}

fn of_property(name: &[u8]) -> Option<Field> {
    match name {
        b"object" => Some(Byte(0)),
        b"id" => Some(Byte(1)),
        b"type" => Some(Byte(2)),
        b"size" => Some(Byte(3)),
        b"maximum" => Some(Word(4)),
        b"count" => Some(Word(6)),
        b"offset" => Some(Word(8)),
        b"levels" => Some(Byte(10)),
        b"zero11" => Some(Byte(11)),
        _ => None,
    }
}

fn of_group(name: &[u8]) -> Option<Field> {
    match name {
        b"address" => Some(Word(0)),
        b"code" => Some(Byte(2)),
        b"flags" => Some(Byte(3)),
        b"offset" => Some(Word(4)),
        b"zero6" => Some(Byte(6)),
        b"zero7" => Some(Byte(7)),
        _ => None,
    }
}

impl Draft {
    // A field of the entry of a kind that has that number, of n entries.
    fn of_entry(&self, kind: Kind, n: u8, i: &[u8], field: Field) -> Option<Field> {
        let i = number(i)?;
        if n <= i {
            return None;
        }
        field.behind(self.place(kind, i))
    }

    // `region0.length` and the like.
    fn entry(&self, owner: &[u8], name: &[u8]) -> Option<Field> {
        if let Some(i) = owner.strip_prefix(b"region") {
            return self.of_entry(Kind::Regions, self.regions, i, of_region(name)?);
        }
        if let Some(i) = owner.strip_prefix(b"property") {
            return self.of_entry(Kind::Properties, self.properties, i, of_property(name)?);
        }
        let i = owner.strip_prefix(b"group")?;
        self.of_entry(Kind::Groups, self.groups, i, of_group(name)?)
    }

    // The field of a name; `@40` is a byte by its place.
    pub(crate) fn field(&self, name: &[u8]) -> Option<Field> {
        if let Some(place) = name.strip_prefix(b"@") {
            return number(place).map(Byte);
        }
        match parted(name, b'.') {
            (_, b"") => head(name),
            (owner, field) => self.entry(owner, field),
        }
    }
}
