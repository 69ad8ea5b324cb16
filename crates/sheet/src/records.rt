// The entries of an accepted sheet as records, and properties by their index within an object.
ghost use Rattle.std.specs.Prelude.{◌≡◌, ◌+◌, ◌<◌, ◌≤◌};
ghost use Rattle.sheet.specs.Kind.{number_of, properties, groups};
ghost use Rattle.sheet.specs.Property as property;
ghost use Rattle.sheet.specs.Entries.{count as count_of};
ghost use Rattle.sheet.specs.Lookup.{Finds, object_at, rank as rank_of, nth_of};
ghost use Rattle.sheet.specs.Places.{PropertyIn, GroupIn};
ghost use Rattle.sheet.specs.Walk.{Entry, Counted};

use crate::layout::{group, property};
use crate::table::{entry, many, place};
use crate::{GroupEntry, Kind, PropertyEntry, Sheet};
use octets::{byte, word};

// Where the count of a property stands whose entry stands at a place.
pub fn count_at(place: usize) -> usize
    requires { place ≤ 16384 }
    ensures { result ≡ place + (property.count).at }
{
    place + property::COUNT
}

// The object of property i.
fn object_at(s: &[u8], i: usize) -> u8
    requires { Entry s.now properties i }
    ensures { result ≡ object_at s.now i }
{
    byte(entry(s, Kind::Properties, i), property::OBJECT)
}

impl Sheet<'_> {
    // How many entries of a kind there are.
    #[tactic(auto, using(crate::proofs::searches::SearchLoops::ok_framed))]
    pub fn count(self, kind: Kind) -> usize
        ensures { Counted self.entry.bytes.now (number_of kind) result }
    {
        many(self.bytes, kind)
    }

    // Property i.
    pub fn property(self, i: usize) -> PropertyEntry
        requires { i < count_of self.bytes.now properties }
        ensures { PropertyIn self.entry.bytes.now i result }
    {
        let e = entry(self.bytes, Kind::Properties, i);
        PropertyEntry {
            object: byte(e, property::OBJECT),
            id: byte(e, property::ID),
            typ: byte(e, property::TYPE),
            element: byte(e, property::ELEMENT) as usize,
            maximum: word(e, property::MAXIMUM) as usize,
            count: word(e, property::COUNT) as usize,
            offset: word(e, property::OFFSET) as usize,
            levels: byte(e, property::LEVELS),
            place: place(self.bytes, Kind::Properties, i),
        }
    }

    // Group object i.
    pub fn group(self, i: usize) -> GroupEntry
        requires { i < count_of self.bytes.now groups }
        ensures { GroupIn self.entry.bytes.now i result }
    {
        let e = entry(self.bytes, Kind::Groups, i);
        GroupEntry {
            code: byte(e, group::CODE) as usize,
            flags: byte(e, group::FLAGS),
            offset: word(e, group::OFFSET) as usize,
        }
    }

    // How many of the first i properties have an object: its properties stand side by side.
    pub fn rank(self, object: u8, i: usize) -> usize
        requires { i ≤ count_of self.bytes.now properties }
        ensures { result ≡ rank_of self.entry.bytes.now object i }
    {
        let first = self.lower(Kind::Properties, object as usize * 256);
        if i <= first {
            return 0;
        }
        if object_at(self.bytes, i - 1) == object {
            return i - first;
        }
        self.lower(Kind::Properties, object as usize * 256 + 256) - first
    }

    // The property of an object by its index, counted from 0 within the object.
    pub fn nth(self, object: u8, index: u8) -> Option<usize>
        ensures { Finds (count_of self.entry.bytes.now properties) (nth_of self.entry.bytes.now object index) result }
    {
        let n = self.count(Kind::Properties);
        let i = self.lower(Kind::Properties, object as usize * 256) + index as usize;
        if i < n && object_at(self.bytes, i) == object {
            Some(i)
        } else {
            None
        }
    }
}
