// S1 to S5: the length, the edition, the numbers of entries, and the bytes that are zero.
ghost use Rattle.std.specs.Prelude.{◌≡◌};
ghost use Rattle.sheet.specs.Demand.{Tells};
ghost use Rattle.sheet.specs.Fault.{told};
ghost use Rattle.sheet.specs.Head as head;
ghost use Rattle.sheet.specs.Rules.{frame_demands, zero_demands, edition};
ghost use Rattle.sheet.specs.Walk.{Framed};

use crate::Fault;
use crate::head::LATER;
use crate::layout::{group, head, property, region};
use crate::table::users;
use octets::{byte, word};

// S1 to S4, of editions 1 and 2.
pub fn frame_rule(s: &[u8]) -> Result<(), Fault>
    ensures { Tells (told result) (frame_demands edition s.now) }
{
    let n = s.len();
    if !(head::SIZE..=16384).contains(&n) {
        return Err(Fault::S1);
    }
    if !(1..=2).contains(&byte(s, head::EDITION)) {
        return Err(Fault::S2);
    }
    let regions = byte(s, head::REGIONS) as usize;
    let properties = byte(s, head::PROPERTIES) as usize;
    let groups = byte(s, head::GROUPS) as usize;
    let users = users(s);
    if 16 < regions || 64 < properties || 64 < groups || 16 < users {
        return Err(Fault::S3);
    }
    // `contents` over what is read here already: where it reads again, the check of a full sheet takes 3 % more instructions.
    let contents = head::SIZE
        + region::SIZE * regions
        + property::SIZE * properties
        + group::SIZE * groups
        + region::SIZE * users;
    if word(s, head::STATED) as usize != n || n < contents {
        return Err(Fault::S4);
    }
    Ok(())
}

// Byte 15 of edition 1.
fn spare(s: &[u8]) -> u8
    ensures { result ≡ head.spare s.now }
{
    if byte(s, head::EDITION) == 2 {
        0
    } else {
        byte(s, head::BYTE15)
    }
}

// The last number of rules that the sheet's edition knows.
fn latest(s: &[u8]) -> u8
    ensures { result ≡ head.latest s.now }
{
    if byte(s, head::EDITION) == 2 {
        LATER
    } else {
        0
    }
}

// What S1 to S4 say (`Framed`) stays a clause of the steps behind them: a type of framed bytes would be made and taken apart in one function.
// S5.
pub fn zero_rule(s: &[u8]) -> Result<(), Fault>
    requires { Framed edition s.now }
    ensures { Tells (told result) (zero_demands s.now) }
{
    if 3 < byte(s, head::FLAGS)
        || spare(s) != 0
        || latest(s) < byte(s, head::RULES)
        || byte(s, head::ZERO31) != 0
    {
        return Err(Fault::S5);
    }
    Ok(())
}
