// S6 to S8, of entry i of a kind, which stands at `at`; the one before it stands as many bytes before as an entry has. Entry 0 has none before
// it: what stands there, of the head or of another kind, is read for nothing.
ghost use Rattle.std.specs.Prelude.{◌≤◌, ◌<◌};
ghost use Rattle.sheet.specs.Demand.{Met};
ghost use Rattle.plain_check.specs.Kind.{number_of};
ghost use Rattle.sheet.specs.Plain.{Levels};
ghost use Rattle.sheet.specs.Rules.{entry_demands};
ghost use Rattle.plain_check.specs.Says.{Says};
ghost use Rattle.plain_check.specs.Tests.{Placed, RegionAt, PropertyAt, GroupAt};

use crate::Kind;
use crate::places::word;
use octets::byte;

// The level for reading, in the high four bits, and that for writing are at most 3.
fn are_levels(levels: u8) -> bool
    ensures { Says (Levels levels) result }
{
    levels / 16 <= 3 && levels % 16 <= 3
}

// S6: a region, also one of the user's, has at least one byte, and none beyond address 65,535; it begins at the end of the one before or
// above; its levels are levels; byte 7 is 0.
fn is_region(s: &[u8], at: usize, i: usize) -> bool
    requires { (32 ≤ at) × (at < 13000) }
    ensures { Says (RegionAt s.now at i) result }
{
    let address = word(s, at);
    let length = word(s, at + 2);
    1 <= length
        && address + length <= 65536
        && (i == 0 || word(s, at - 8) + word(s, at - 6) <= address)
        && are_levels(byte(s, at + 6))
        && byte(s, at + 7) == 0
}

// S7: a property's id is not 0; object and id, as one number, are above those of the one before; bit 6 of the type is 0; the size is 1 to
// 10, the maximum 1 to 4,095, the count at most the maximum; its levels are levels; byte 11 is 0.
fn is_property(s: &[u8], at: usize, i: usize) -> bool
    requires { (32 ≤ at) × (at < 13000) }
    ensures { Says (PropertyAt s.now at i) result }
{
    let maximum = word(s, at + 4);
    1 <= byte(s, at + 1)
        && (i == 0 || word(s, at - 12) < word(s, at))
        && byte(s, at + 2) / 64 % 2 == 0
        && (1..=10).contains(&byte(s, at + 3))
        && (1..=4095).contains(&maximum)
        && word(s, at + 6) <= maximum
        && are_levels(byte(s, at + 10))
        && byte(s, at + 11) == 0
}

// S8: a group object's address is not 0, and above that of the one before; the code is at most 14, the flags at most 7; bytes 6 and 7
// are 0.
fn is_group(s: &[u8], at: usize, i: usize) -> bool
    requires { (32 ≤ at) × (at < 13000) }
    ensures { Says (GroupAt s.now at i) result }
{
    1 <= word(s, at)
        && (i == 0 || word(s, at - 8) < word(s, at))
        && byte(s, at + 2) <= 14
        && byte(s, at + 3) <= 7
        && word(s, at + 6) == 0
}

// Entry i of a kind, which stands at `at`, by the rule of its kind.
pub fn keeps_its_rule(s: &[u8], kind: Kind, i: usize, at: usize) -> bool
    requires { Placed s.now (number_of kind) i at }
    ensures { Says (Met (entry_demands s.now (number_of kind) i)) result }
{
    match kind {
        Kind::Properties => is_property(s, at, i),
        Kind::Groups => is_group(s, at, i),
        Kind::Regions | Kind::Users => is_region(s, at, i),
    }
}
