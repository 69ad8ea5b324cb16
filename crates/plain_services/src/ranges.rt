// Memory: where a range of addresses stands, if it may be used.
ghost use Rattle.std.specs.Prelude.{◌≡◌, List, ℕ, ◌≤◌};
ghost use Rattle.parts.specs.Records.{Taken};
ghost use Rattle.plain_services.specs.Steps.{Held};
ghost use Rattle.plain_services.specs.Memory.{may_in, stands_for, range_for, IsArea};

use crate::Area;
use judge::Access;
use parts::{Parts, Region};
use sheet::Memory;

// The level suffices.
fn may(access: Access, level: u8, region: Region) -> bool
    ensures { result ≡ may_in access level region }
{
    match access {
        Access::Read => level <= region.read,
        Access::Write => level <= region.write,
        Access::Change => level <= region.read && level <= region.write,
    }
}

// Where an address stands among the bodies, if a region has it for which the level suffices.
fn stands(area: Area, access: Access, level: u8, address: usize) -> Option<usize>
    requires { (area.count ≤ 16) × (address ≤ 65790) }
    ensures { result ≡ stands_for area.regions area.count access level address }
{
    for i in 0..area.count {
        let region = area.regions[i];
        let first = region.address as usize;
        if first <= address && address < first + region.length as usize {
            if !may(access, level, region) {
                return None;
            }
            return Some(region.offset as usize + (address - first));
        }
    }
    None
}

// Where n addresses stand: 1 to the most that may be named, and each may be used. By S6 and S9 they stand one after the other.
pub fn range(area: Area, access: Access, level: u8, most: u8, n: u8, address: u16) -> Option<usize>
    requires { area.count ≤ 16 }
    ensures { result ≡ range_for area.regions area.count access level most n address }
{
    if n < 1 || most < n {
        return None;
    }
    for i in 0..n as usize {
        let Some(_) = stands(area, access, level, address as usize + i) else {
            return None;
        };
    }
    stands(area, access, level, address as usize)
}

// The regions of a memory.
pub fn area(parts: Parts, memory: Memory) -> Area
    ensures { ((s : List ℕ) → Taken s parts → IsArea s memory result.regions result.count) × (Held parts → result.count ≤ 16) }
{
    let regions = parts.regions;
    let users = parts.users;
    match memory {
        Memory::Device => Area {
            regions,
            count: parts.counts.regions,
        },
        Memory::User => Area {
            regions: users,
            count: parts.counts.users,
        },
    }
}
