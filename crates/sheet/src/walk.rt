// S6 to S9: the walk over the entries and their bodies, that stops at the first rule broken.
ghost use Rattle.std.specs.Prelude.{◌≡◌, ◌<◌, ◌≢◌};
ghost use Rattle.sheet.specs.Demand.{Tells};
ghost use Rattle.sheet.specs.Fault.{number_of as fault_number, told};
ghost use Rattle.sheet.specs.Kind.{kinds, number_of, users};
ghost use Rattle.sheet.specs.Entries.{place as place_of, floor, start_of};
ghost use Rattle.sheet.specs.First.{or_else};
ghost use Rattle.sheet.specs.Rules.{end_demands, entries_rule, walk_rule, rule_of, verdict_of, edition};
ghost use Rattle.sheet.specs.Walk.{Framed, Entry, Steps, last_of, far};

use crate::entry_rules::{Step, group_step, property_step, region_step};
use crate::frame::{frame_rule, zero_rule};
use crate::layout::head;
use crate::table::{contents, many, part, place};
use crate::{Fault, Kind};
use octets::byte;

// S6, S7 or S8 of entry i of a kind, and S9 of its body. An arm for each kind, so that each is compiled by itself.
fn step(s: &[u8], kind: Kind, i: u32, now: Step) -> Result<Step, Fault>
    requires { Entry s.now (number_of kind) i × (now.at ≡ place_of s.now (number_of kind) i) × (now.last ≡ last_of (number_of kind) (floor s.now (number_of kind) i)) × (now.end < far) }
    ensures { Steps s.now (number_of kind) i now.end now.late result }
{
    match kind {
        Kind::Regions => region_step(now, part(s, Kind::Regions, i as usize, now.at)),
        Kind::Properties => property_step(now, part(s, Kind::Properties, i as usize, now.at)),
        Kind::Groups => group_step(s, now, part(s, Kind::Groups, i as usize, now.at)),
        Kind::Users => region_step(now, part(s, Kind::Users, i as usize, now.at)),
    }
}

// S9, of all bodies, the last of which ends at z.
fn end_rule(s: &[u8], z: u32, late: u32) -> Result<(), Fault>
    ensures { ((late ≢ 0) → told result ≡ 9) × (late ≡ 0 → z ≡ start_of s.now kinds → Tells (told result) (end_demands s.now)) }
{
    if late != 0 || z as usize != s.len() {
        return Err(Fault::S9);
    }
    Ok(())
}

// S6 of the user regions.
fn users_rule(s: &[u8]) -> Result<(), Fault>
    requires { Framed edition s.now }
    ensures { told result ≡ entries_rule s.now users }
{
    let n = many(s, Kind::Users) as u32;
    let mut now = Step {
        at: place(s, Kind::Users, 0),
        last: 0,
        late: 0,
        end: 0,
    };
    for i in 0..n {
        let next = step(s, Kind::Users, i, now)?;
        now = Step {
            late: 0,
            end: 0,
            ..next
        };
    }
    Ok(())
}

// The rule that an entry breaks, but first that of the user regions: their S6 goes before S7 and S8, and they are walked last.
fn users_first(s: &[u8], fault: Fault) -> Result<(), Fault>
    requires { Framed edition s.now }
    ensures { told result ≡ or_else (entries_rule s.now users) (fault_number fault) }
{
    users_rule(s)?;
    Err(fault)
}

// S6 to S9, each entry with its body in one go: that a body breaks S9 counts once all entries have passed. A body's end is that
// of the one before and its length, and stands where the sheet says as long as nothing is late.
fn walk(s: &[u8]) -> Result<(), Fault>
    requires { Framed edition s.now }
    ensures { told result ≡ walk_rule s.now }
{
    let mut now = Step {
        at: head::SIZE,
        last: 0,
        late: 0,
        end: contents(s) as u32,
    };
    'walk: {
        for kind in Kind::ALL {
            let n = many(s, kind) as u32;
            now.last = 0;
            for i in 0..n {
                match step(s, kind, i, now) {
                    Ok(next) => now = next,
                    Err(fault) => break 'walk users_first(s, fault),
                }
            }
        }
        end_rule(s, now.end, now.late)
    }
}

// S1 to S9, one after the other.
fn first_broken(s: &[u8]) -> Result<(), Fault>
    ensures { told result ≡ rule_of s.now }
{
    frame_rule(s)?;
    zero_rule(s)?;
    walk(s)
}

// What is said of a sheet: the first rule that it breaks, S1 to S9; Old if it breaks none and is of edition 1; and nothing
// if it is accepted. Taken as a part of itself, the sheet is handed over in registers.
pub fn check(sheet: &[u8]) -> Result<(), Fault>
    ensures { told result ≡ verdict_of sheet.now }
{
    first_broken(&sheet[..])?;
    if byte(sheet, head::EDITION) == 1 {
        return Err(Fault::Old);
    }
    Ok(())
}
