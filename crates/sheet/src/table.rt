// The entries of a sheet by kind and number, and where their bodies lie.
ghost use Rattle.std.specs.Prelude.{◌≡◌, ◌+◌, ◌*◌, ◌<◌, ◌≤◌, max, length};
ghost use Rattle.sheet.specs.Rules.{edition};
ghost use Rattle.sheet.specs.Kind.{number_of, OfKind};
ghost use Rattle.sheet.specs.Layout.{◌of◌};
ghost use Rattle.sheet.specs.Head as head;
ghost use Rattle.sheet.specs.Property as property;
ghost use Rattle.sheet.specs.Entries.{size as size_of, place as place_of, contents as contentsOf};
ghost use Rattle.sheet.specs.Walk.{Framed, Entry, Counted, Shown, Starts, Long, Sized};

use crate::Kind;
use crate::layout::{group, head, property, region};
use octets::{byte, word};

// How many user regions there are.
pub fn users(s: &[u8]) -> usize
    ensures { (result ≡ head.users s.now) × (result < 256) }
{
    if byte(s, head::EDITION) == 2 {
        byte(s, head::BYTE15) as usize
    } else {
        0
    }
}

// How many entries of a kind there are. The numbers stand in the order of the kinds, but for that of the user regions: read by the
// kind's number, they take no second table of jumps in the walk.
pub fn many(s: &[u8], kind: Kind) -> usize
    requires { Framed edition s.now }
    ensures { Counted s.now (number_of kind) result }
{
    match kind {
        Kind::Users => users(s),
        Kind::Regions | Kind::Properties | Kind::Groups => {
            byte(s, head::REGIONS + kind as usize) as usize
        }
    }
}

// How long an entry of a kind is.
pub fn size(kind: Kind) -> usize
    ensures { OfKind result (number_of kind) (size_of 0) (size_of 1) (size_of 2) (size_of 3) }
{
    match kind {
        Kind::Regions => region::SIZE,
        Kind::Properties => property::SIZE,
        Kind::Groups => group::SIZE,
        Kind::Users => region::SIZE,
    }
}

// Where entry i of a kind stands.
pub fn place(s: &[u8], kind: Kind, i: usize) -> usize
    requires { Framed edition s.now × (i ≤ 64) }
    ensures { OfKind result (number_of kind) (place_of s.now 0 i) (place_of s.now 1 i) (place_of s.now 2 i) (place_of s.now 3 i) }
{
    let properties = head::SIZE + region::SIZE * byte(s, head::REGIONS) as usize;
    let groups = properties + property::SIZE * byte(s, head::PROPERTIES) as usize;
    match kind {
        Kind::Regions => head::SIZE + region::SIZE * i,
        Kind::Properties => properties + property::SIZE * i,
        Kind::Groups => groups + group::SIZE * i,
        Kind::Users => groups + group::SIZE * byte(s, head::GROUPS) as usize + region::SIZE * i,
    }
}

// Where the contents end.
pub fn contents(s: &[u8]) -> usize
    ensures { result ≡ contentsOf s.now }
{
    head::SIZE
        + region::SIZE * byte(s, head::REGIONS) as usize
        + property::SIZE * byte(s, head::PROPERTIES) as usize
        + group::SIZE * byte(s, head::GROUPS) as usize
        + region::SIZE * users(s)
}

// Entry i of a kind, as the part of the sheet that it is: it stands at a.
pub fn part(s: &[u8], kind: Kind, i: usize, a: usize) -> &[u8]
    requires { Entry s.now (number_of kind) i × (a ≡ place_of s.now (number_of kind) i) }
    ensures { Shown s.now (number_of kind) i result.now }
{
    &s[a..a + size(kind)]
}

// The same, wherever it stands.
pub fn entry(s: &[u8], kind: Kind, i: usize) -> &[u8]
    requires { Entry s.now (number_of kind) i }
    ensures { Shown s.now (number_of kind) i result.now }
{
    part(s, kind, i, place(s, kind, i))
}

// Where the body of an entry starts.
pub fn offset(kind: Kind, e: &[u8]) -> usize
    requires { Sized (number_of kind) e.now }
    ensures { Starts (number_of kind) e.now result }
{
    match kind {
        Kind::Regions => word(e, region::OFFSET) as usize,
        Kind::Properties => word(e, property::OFFSET) as usize,
        Kind::Groups => word(e, group::OFFSET) as usize,
        Kind::Users => word(e, region::OFFSET) as usize,
    }
}

// How long it is.
pub fn length(kind: Kind, e: &[u8]) -> usize
    requires { Sized (number_of kind) e.now }
    ensures { Long (number_of kind) e.now result }
{
    match kind {
        Kind::Regions => word(e, region::LENGTH) as usize,
        Kind::Properties => elements(e) as usize,
        Kind::Groups => byte(e, group::CODE).max(1) as usize,
        Kind::Users => word(e, region::LENGTH) as usize,
    }
}

// How many bytes the elements of a property are.
pub fn elements(e: &[u8]) -> u32
    requires { (property.maximum).at + 1 < length e.now }
    ensures { (result ≡ property.element of e.now * property.maximum of e.now) × (result < 16777216) }
{
    byte(e, property::ELEMENT) as u32 * word(e, property::MAXIMUM) as u32
}
