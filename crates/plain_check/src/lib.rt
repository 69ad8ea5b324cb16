// The plain engine's own check of a sheet, S1 to S9 over the bytes. No test rests on one made before: past the end of a sheet every byte
// is read as 0.
#![tactic(auto)]

mod bodies;
mod entries;
mod places;

ghost use Rattle.std.specs.Prelude.{◌≡◌};
ghost use Rattle.plain_check.specs.Refused.{told};
ghost use Rattle.sheet.specs.Rules.{refusal_of};
ghost use Rattle.sheet.specs.Plain.{S1, S2, S3, S4, S5, S6, S7, S8, S9};
ghost use Rattle.plain_check.specs.Says.{Says};

use crate::bodies::keeps_6_to_9;
use crate::places::{count, place, word};
use octets::byte;

// The kinds of entries, in the order in which they stand.
#[derive(Clone, Copy, PartialEq, Eq)]
pub enum Kind {
    Regions,
    Properties,
    Groups,
    Users,
}

impl Kind {
    pub const ALL: [Kind; 4] = [Kind::Regions, Kind::Properties, Kind::Groups, Kind::Users];
}

// What a call on a sheet is refused by: it breaks a rule, or breaks none and is of edition 1.
#[derive(Clone, Copy, PartialEq, Eq)]
pub enum Refused {
    Bad = 4,
    Old = 14,
}

// S1: a sheet has 32 to 16,384 bytes.
fn keeps_1(s: &[u8]) -> bool
    ensures { Says (S1 s.now) result }
{
    (32..=16384).contains(&s.len())
}

// S2: its edition, byte 0, is 1 or 2.
fn keeps_2(s: &[u8]) -> bool
    ensures { Says (S2 2 s.now) result }
{
    (1..=2).contains(&byte(s, 0))
}

// S3: it has at most 16 regions, 64 properties, 64 group objects and 16 user regions.
fn keeps_3(s: &[u8]) -> bool
    ensures { Says (S3 s.now) result }
{
    count(s, Kind::Regions) <= 16
        && count(s, Kind::Properties) <= 64
        && count(s, Kind::Groups) <= 64
        && count(s, Kind::Users) <= 16
}

// S4: it states its own length, in bytes 4 and 5, and has room for head and entries.
fn keeps_4(s: &[u8]) -> bool
    ensures { Says (S4 s.now) result }
{
    word(s, 4) == s.len() && place(s, Kind::Users, count(s, Kind::Users)) <= s.len()
}

// S5: the flags, byte 14, are at most 3; byte 15 is the number of user regions, of which edition 1 has none; the rules, byte 30, are 0, or
// 1 in edition 2; byte 31 is 0.
fn keeps_5(s: &[u8]) -> bool
    ensures { Says (S5 s.now) result }
{
    byte(s, 14) <= 3
        && byte(s, 15) as usize == count(s, Kind::Users)
        && (byte(s, 30) == 0 || byte(s, 30) == 1 && byte(s, 0) == 2)
        && byte(s, 31) == 0
}

// S1 to S9.
fn keeps_all(s: &[u8]) -> bool
    ensures { Says (S1 s.now × S2 2 s.now × S3 s.now × S4 s.now × S5 s.now × (S6 s.now × S7 s.now × S8 s.now × S9 s.now)) result }
{
    keeps_1(s) && keeps_2(s) && keeps_3(s) && keeps_4(s) && keeps_5(s) && keeps_6_to_9(s)
}

// What a call on a sheet is refused by: it breaks a rule, or breaks none and is of edition 1.
pub fn refusal(s: &[u8]) -> Result<(), Refused>
    ensures { told result ≡ refusal_of s.now }
{
    if !keeps_all(s) {
        return Err(Refused::Bad);
    }
    if byte(s, 0) == 1 {
        return Err(Refused::Old);
    }
    Ok(())
}
