// Finding entries by their first word, and the part of the sheet that a value lookup hands back: in numbers, and as it stands there.
ghost use Rattle.std.specs.Prelude.{◌≡◌, ◌+◌, ◌*◌, ◌<◌, ◌≤◌, length, take, drop};
ghost use Rattle.sheet.specs.Kind.{number_of};
ghost use Rattle.sheet.specs.Entries.{count as count_of, key_of};
ghost use Rattle.sheet.specs.Lookup.{PartOf, StandsIn, Finds, index_of, body_of, body_from, lookup, lookup_from, region_of, region_from};
ghost use Rattle.sheet.specs.Lookup.{user_region_of, user_region_from, property_of, property_from, group_of, group_from};
ghost use Rattle.sheet.specs.Walk.{Entry, Lower};

use crate::table::{entry, length, many, offset};
use crate::{Kind, Part, Sheet, layout};
use octets::word;

// That entry i is there (`Entry`) stays a clause of what reads one: a type of places would be made for each step of a search.
// The first word of an entry.
fn first_word(s: &[u8], kind: Kind, i: usize) -> usize
    requires { Entry s.now (number_of kind) i }
    ensures { result ≡ key_of s.now (number_of kind) i }
{
    word(entry(s, kind, i), layout::KEY) as usize
}

impl Sheet<'_> {
    // THE SEARCH BY HALVES: the first entry of a kind whose first word is not below `key`, and the count where there is none.
    // Each step leaves half of what is left, or less: of 64 entries 32, 16, 8, 4, 2, 1 and none, so there are seven at most.
    pub(crate) fn lower(self, kind: Kind, key: usize) -> usize
        ensures { Lower self.entry.bytes.now (number_of kind) key result }
    {
        let mut lo = 0;
        let mut hi = many(self.bytes, kind);
        // No count: the search halves what is left.
        while lo < hi {
            let mid = lo + (hi - lo) / 2;
            if first_word(self.bytes, kind, mid) < key {
                lo = mid + 1;
            } else {
                hi = mid;
            }
        }
        lo
    }

    // The number of the entry of a kind whose first word is `key`.
    pub fn find(self, kind: Kind, key: usize) -> Option<usize>
        ensures { Finds (count_of self.entry.bytes.now (number_of kind)) (index_of self.entry.bytes.now (number_of kind) key) result }
    {
        let i = self.lower(kind, key);
        if i < many(self.bytes, kind) && first_word(self.bytes, kind, i) == key {
            Some(i)
        } else {
            None
        }
    }

    // The body of entry i of a kind, and nothing where that is no entry.
    fn body(self, kind: Kind, i: usize) -> Part
        ensures { StandsIn self.entry.bytes.now result (body_of self.entry.bytes.now (number_of kind) i) (body_from self.entry.bytes.now (number_of kind) i) }
    {
        if many(self.bytes, kind) <= i {
            return Part::NOTHING;
        }
        let e = entry(self.bytes, kind, i);
        Part {
            offset: offset(kind, e),
            length: length(kind, e),
        }
    }
}

// The same of an accepted sheet, and nothing of any other: by number, and by the first word.
fn value(s: &[u8], kind: Kind, i: usize) -> Part
    ensures { StandsIn s.now result (lookup s.now (number_of kind) i) (lookup_from s.now (number_of kind) i) }
{
    match Sheet::new(s) {
        Ok(sheet) => sheet.body(kind, i),
        Err(_) => Part::NOTHING,
    }
}

fn keyed(s: &[u8], kind: Kind, key: usize) -> Part
    ensures { StandsIn s.now result (lookup s.now (number_of kind) (index_of s.now (number_of kind) key)) (lookup_from s.now (number_of kind) (index_of s.now (number_of kind) key)) }
{
    let Ok(sheet) = Sheet::new(s) else {
        return Part::NOTHING;
    };
    match sheet.find(kind, key) {
        Some(i) => sheet.body(kind, i),
        None => Part::NOTHING,
    }
}

// A function for each kind of value, as documents and C name them: each is one line over `value`, `keyed` and `cut`.
// Where the body of region k stands, counted from 0.
pub fn region_part(sheet: &[u8], k: usize) -> Part
    ensures { StandsIn sheet.now result (region_of sheet.now k) (region_from sheet.now k) }
{
    value(sheet, Kind::Regions, k)
}

// Where the body of user region k stands, counted from 0.
pub fn user_region_part(sheet: &[u8], k: usize) -> Part
    ensures { StandsIn sheet.now result (user_region_of sheet.now k) (user_region_from sheet.now k) }
{
    value(sheet, Kind::Users, k)
}

// Where the body of a property stands.
pub fn property_part(sheet: &[u8], object: u8, id: u8) -> Part
    ensures { StandsIn sheet.now result (property_of sheet.now object id) (property_from sheet.now object id) }
{
    keyed(sheet, Kind::Properties, object as usize * 256 + id as usize)
}

// Where the body of a group object stands.
pub fn group_part(sheet: &[u8], address: u16) -> Part
    ensures { StandsIn sheet.now result (group_of sheet.now address) (group_from sheet.now address) }
{
    keyed(sheet, Kind::Groups, address as usize)
}

// The part of a sheet that numbers say.
fn cut(s: &[u8], p: Part) -> &[u8]
    requires { p.offset + p.length ≤ length s.now }
    ensures { PartOf s.entry result (take p.length (drop p.offset s.now)) p.offset }
{
    &s[p.offset..p.offset + p.length]
}

// The body of region k, counted from 0.
pub fn region(sheet: &[u8], k: usize) -> &[u8]
    ensures { PartOf sheet.entry result (region_of sheet.now k) (region_from sheet.now k) }
{
    cut(sheet, region_part(sheet, k))
}

// The body of user region k, counted from 0.
pub fn user_region(sheet: &[u8], k: usize) -> &[u8]
    ensures { PartOf sheet.entry result (user_region_of sheet.now k) (user_region_from sheet.now k) }
{
    cut(sheet, user_region_part(sheet, k))
}

// The body of a property.
pub fn property(sheet: &[u8], object: u8, id: u8) -> &[u8]
    ensures { PartOf sheet.entry result (property_of sheet.now object id) (property_from sheet.now object id) }
{
    cut(sheet, property_part(sheet, object, id))
}

// The body of a group object.
pub fn group(sheet: &[u8], address: u16) -> &[u8]
    ensures { PartOf sheet.entry result (group_of sheet.now address) (group_from sheet.now address) }
{
    cut(sheet, group_part(sheet, address))
}
