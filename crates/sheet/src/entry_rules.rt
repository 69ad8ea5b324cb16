// S6 to S8 of one entry, and S9 of its body.
ghost use Rattle.std.specs.Prelude.{◌≡◌, ◌+◌, ◌<◌, ◌≤◌, length};
ghost use Rattle.sheet.specs.Demand.{Tells};
ghost use Rattle.sheet.specs.Fault.{told};
ghost use Rattle.sheet.specs.Kind.{regions, properties, groups};
ghost use Rattle.sheet.specs.Entries.{floor_after, offset_of, length_of, six_bits};
ghost use Rattle.sheet.specs.Rules.{region_demands, property_demands, group_demands};
ghost use Rattle.sheet.specs.Walk.{Late, StepOver, last_of, far};
ghost use Rattle.sheet.specs.Region as region;
ghost use Rattle.sheet.specs.Property as property;
ghost use Rattle.sheet.specs.Group as group;

use crate::Fault;
use crate::layout::{group, property, region};
use crate::table::elements;
use octets::{byte, word};

// How far the walk has come, and what an entry that breaks no rule leaves behind: where the next entry stands, what it is judged
// against, what is late, and where the body is to end. What is late stays a number, or-ed over the entries: so no step has a branch for it.
#[derive(Clone, Copy)]
pub struct Step {
    pub at: usize,
    pub last: u32,
    pub late: u32,
    pub end: u32,
}

// S9, of a body that starts at `from` where the one before ended at z, six being its byte if it is to be below 64: what differs,
// with what is late already. 0 if nothing is.
fn late_of(late: u32, from: u32, z: u32, six: u32) -> u32
    ensures { Late late from z six result }
{
    late | (from ^ z) | (six / 64)
}

// S6, of a region whose address is to be at least `floor`.
fn region_rule(floor: u32, e: &[u8]) -> Result<(), Fault>
    requires { region.size ≤ length e.now }
    ensures { Tells (told result) (region_demands floor e.now) }
{
    let address = word(e, region::ADDRESS) as u32;
    let long = word(e, region::LENGTH) as u32;
    let levels = byte(e, region::LEVELS);
    if long < 1
        || 65536 < address + long
        || address < floor
        || 3 < levels / 16
        || 3 < levels % 16
        || byte(e, region::ZERO) != 0
    {
        return Err(Fault::S6);
    }
    Ok(())
}

// That the walk has not come far, and an entry is as long as its kind, stay clauses: numbers of one walk, in 32 bits for speed.
// The same, and if it breaks nothing, S9 of its body.
pub fn region_step(now: Step, e: &[u8]) -> Result<Step, Fault>
    requires { (region.size ≤ length e.now) × (now.at < far) × (now.end < far) }
    ensures { StepOver (region_demands now.last e.now) (floor_after regions e.now) now.late (offset_of regions e.now) now.end 0
        (length_of regions e.now) (now.at + region.size) result }
{
    region_rule(now.last, e)?;
    let long = word(e, region::LENGTH) as u32;
    Ok(Step {
        at: now.at + region::SIZE,
        last: word(e, region::ADDRESS) as u32 + long,
        late: late_of(now.late, word(e, region::OFFSET) as u32, now.end, 0),
        end: now.end + long,
    })
}

// S7, of a property whose object and id, as one number, are to be above `last`. One less wraps at 0, so that one test has both limits
// of the maximum: by `contains` they are two.
fn property_rule(last: u32, e: &[u8]) -> Result<(), Fault>
    requires { property.size ≤ length e.now }
    ensures { Tells (told result) (property_demands (last + 1) e.now) }
{
    let maximum = word(e, property::MAXIMUM);
    if byte(e, property::ID) < 1
        || word(e, property::OBJECT_ID) as u32 <= last
        || byte(e, property::TYPE) / 64 % 2 != 0
        || !(1..=10).contains(&byte(e, property::ELEMENT))
        || 4095 <= maximum.wrapping_sub(1)
        || maximum < word(e, property::COUNT)
        || 3 < byte(e, property::LEVELS) / 16
        || 3 < byte(e, property::LEVELS) % 16
        || byte(e, property::ZERO) != 0
    {
        return Err(Fault::S7);
    }
    Ok(())
}

// The same, and if it breaks nothing, S9 of its body.
pub fn property_step(now: Step, e: &[u8]) -> Result<Step, Fault>
    requires { (property.size ≤ length e.now) × (now.at < far) × (now.end < far) }
    ensures { StepOver (property_demands (now.last + 1) e.now) (last_of properties (floor_after properties e.now)) now.late
        (offset_of properties e.now) now.end 0 (length_of properties e.now) (now.at + property.size) result }
{
    property_rule(now.last, e)?;
    Ok(Step {
        at: now.at + property::SIZE,
        last: word(e, property::OBJECT_ID) as u32,
        late: late_of(now.late, word(e, property::OFFSET) as u32, now.end, 0),
        end: now.end + elements(e),
    })
}

// S8, of a group object whose address is to be above `last`, and so not 0.
fn group_rule(last: u32, e: &[u8]) -> Result<(), Fault>
    requires { group.size ≤ length e.now }
    ensures { Tells (told result) (group_demands (last + 1) e.now) }
{
    if word(e, group::ADDRESS) as u32 <= last
        || 14 < byte(e, group::CODE)
        || 7 < byte(e, group::FLAGS)
        || word(e, group::ZEROS) != 0
    {
        return Err(Fault::S8);
    }
    Ok(())
}

// The same, and if it breaks nothing, S9 of its body. A code but 0 has an end of its own: five instructions less for each.
pub fn group_step(s: &[u8], now: Step, e: &[u8]) -> Result<Step, Fault>
    requires { (group.size ≤ length e.now) × (now.at < far) × (now.end < far) }
    ensures { StepOver (group_demands (now.last + 1) e.now) (last_of groups (floor_after groups e.now)) now.late
        (offset_of groups e.now) now.end (six_bits s.now groups e.now) (length_of groups e.now) (now.at + group.size) result }
{
    group_rule(now.last, e)?;
    let from = word(e, group::OFFSET);
    let code = byte(e, group::CODE);
    if code != 0 {
        return Ok(Step {
            at: now.at + group::SIZE,
            last: word(e, group::ADDRESS) as u32,
            late: late_of(now.late, from as u32, now.end, 0),
            end: now.end + code as u32,
        });
    }
    Ok(Step {
        at: now.at + group::SIZE,
        last: word(e, group::ADDRESS) as u32,
        late: late_of(
            now.late,
            from as u32,
            now.end,
            byte(s, from as usize) as u32,
        ),
        end: now.end + 1,
    })
}
