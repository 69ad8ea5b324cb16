// THE SHEET TAKEN APART, AND WRITTEN AGAIN from its first byte to its last.
ghost use Rattle.std.specs.Prelude.{◌≡◌, ℕ, ◌≤◌, ◌<◌, length, get_or};
ghost use Rattle.sheet.specs.Rules.{Accepted};
ghost use Rattle.parts.specs.Records.{Taken};
ghost use Rattle.parts.specs.Again.{Restores, Whole, Roomy, second, third, fourth, end};

use crate::front::{counts, head, write_head};
use crate::lists::{entries_from, write_entries};
use crate::{Counts, Parts, Starts};

// The bytes from a place on, each at its own place.
fn bodies(sheet: &[u8], from: usize) -> [u8; 16384]
    requires { (from ≤ length sheet.now) × (length sheet.now ≤ 16384) }
    ensures { (length result ≡ 16384) × ((p : ℕ) → from ≤ p → p < length sheet.now → get_or result p 0 ≡ get_or sheet.now p 0) }
{
    let mut bodies = [0u8; 16384];
    octets::splice(&mut bodies, from, &sheet[from..]);
    bodies
}

// Where what follows the head begins: entries of 8, 12, 8 and 8 bytes, each kind behind the other, then the bodies.
fn starts_of(counts: Counts) -> Starts
    requires { (counts.regions ≤ 16) × (counts.properties ≤ 64) × (counts.groups ≤ 64) × (counts.users ≤ 16) }
    ensures { (result.properties ≡ second counts) × (result.groups ≡ third counts) × (result.users ≡ fourth counts) × (result.bodies ≡ end counts) }
{
    let properties = 32 + 8 * counts.regions;
    let groups = properties + 12 * counts.properties;
    let users = groups + 8 * counts.groups;
    Starts {
        properties,
        groups,
        users,
        bodies: users + 8 * counts.users,
    }
}

pub fn take_apart(sheet: &[u8]) -> Parts
    requires { Accepted sheet.now }
    ensures { Taken sheet.now result }
{
    let counts = counts(sheet);
    let head = head(sheet);
    let starts = starts_of(counts);
    let regions = entries_from(sheet, 32, counts.regions);
    let properties = entries_from(sheet, starts.properties, counts.properties);
    let groups = entries_from(sheet, starts.groups, counts.groups);
    let users = entries_from(sheet, starts.users, counts.users);
    let bodies = bodies(sheet, starts.bodies);
    Parts {
        head,
        counts,
        regions,
        properties,
        groups,
        users,
        bodies,
        length: sheet.len(),
    }
}

pub fn write_again(parts: Parts, sheet: &mut [u8])
    requires { Roomy parts (length sheet.old) }
    ensures { Restores (Whole parts) sheet.old sheet.new 0 parts.length }
{
    let counts = parts.counts;
    let starts = starts_of(counts);
    write_head(sheet, parts.head, counts, parts.length);
    write_entries(sheet, 32, &parts.regions[..counts.regions]);
    write_entries(
        sheet,
        starts.properties,
        &parts.properties[..counts.properties],
    );
    write_entries(sheet, starts.groups, &parts.groups[..counts.groups]);
    write_entries(sheet, starts.users, &parts.users[..counts.users]);
    octets::splice(
        sheet,
        starts.bodies,
        &parts.bodies[starts.bodies..parts.length],
    );
}

// Taken apart and written again, an accepted sheet has the same bytes.
pub fn same(sheet: &mut [u8])
    requires { Accepted sheet.old }
    ensures { sheet.new ≡ sheet.old }
{
    let parts = take_apart(&sheet[..]);
    write_again(parts, sheet);
}
