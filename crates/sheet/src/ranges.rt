// An address range of a memory, as a run of sheet bytes.
ghost use Rattle.std.specs.Prelude.{◌≡◌, ◌+◌, ◌-◌, ◌<◌, ◌≤◌, length};
ghost use Rattle.sheet.specs.Layout.{◌of◌};
ghost use Rattle.sheet.specs.Region as region;
ghost use Rattle.sheet.specs.Lookup.{common as commonOf, range_of};
ghost use Rattle.sheet.specs.Kind.{number_of, kind_of};
ghost use Rattle.sheet.specs.Walk.{Onward};

use crate::layout::region;
use crate::table::{entry, many};
use crate::{Kind, Memory, Run, Sheet};
use octets::{byte, word};

// Where the region of entry e ends.
fn end_of(e: &[u8]) -> usize
    requires { region.size ≤ length e.now }
    ensures { (result ≡ region.address of e.now + region.length of e.now) × (result < 131072) }
{
    word(e, region::ADDRESS) as usize + word(e, region::LENGTH) as usize
}

// Where address a of that region stands.
fn place_in(e: &[u8], a: usize) -> usize
    requires { (region.size ≤ length e.now) × (region.address of e.now ≤ a) × (a < 65536) }
    ensures { result ≡ region.offset of e.now + (a - region.address of e.now) }
{
    word(e, region::OFFSET) as usize + (a - word(e, region::ADDRESS) as usize)
}

// The rights that two bytes of levels have in common: of each half the smaller.
#[tactic(auto, unfolding(crate::specs::Lookup::common))]
fn common(l: u8, k: u8) -> u8
    ensures { result ≡ commonOf l k }
{
    (l / 16).min(k / 16) * 16 + (l % 16).min(k % 16)
}

impl Memory {
    // The kind of entry that its regions are.
    fn kind(self) -> Kind
        ensures { number_of result ≡ kind_of self }
    {
        match self {
            Memory::Device => Kind::Regions,
            Memory::User => Kind::Users,
        }
    }
}

// How far a run has come, and the rights that hold of all of it.
#[derive(Clone, Copy)]
struct Reach {
    end: usize,
    levels: u8,
}

impl Sheet<'_> {
    // A run that has come to `end` under `levels`, and on through region i: that one must begin there.
    fn next(self, kind: Kind, i: usize, end: usize, levels: u8) -> Option<Reach>
        requires { 0 < end }
        ensures { Onward self.entry.bytes.now (number_of kind) i end levels result }
    {
        if many(self.bytes, kind) <= i {
            return None;
        }
        let e = entry(self.bytes, kind, i);
        if word(e, region::ADDRESS) as usize != end {
            return None;
        }
        Some(Reach {
            end: end_of(e),
            levels: common(levels, byte(e, region::LEVELS)),
        })
    }

    // The run of sheet bytes that the n addresses from a on of a memory are: the search by halves gives the first region, and as long
    // as the range goes on, the next one must begin where the last one ends.
    pub fn range(self, memory: Memory, address: usize, n: usize) -> Option<Run>
        requires { (address < 65536) × (n < 256) }
        ensures { result ≡ range_of self.entry.bytes.now memory address n }
    {
        if n == 0 {
            return None;
        }
        let kind = memory.kind();
        let mut i = self.lower(kind, address + 1);
        if i == 0 {
            return None;
        }
        let e = entry(self.bytes, kind, i - 1);
        let mut end = end_of(e);
        if end <= address {
            return None;
        }
        let offset = place_in(e, address);
        let mut levels = byte(e, region::LEVELS);
        // No count: it goes on until the range's end is reached.
        while end < address + n {
            let reach = self.next(kind, i, end, levels)?;
            end = reach.end;
            levels = reach.levels;
            i += 1;
        }
        Some(Run { offset, levels })
    }
}
