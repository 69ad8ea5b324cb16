// The head: taken from its places, and written there again. The flags: 1 programming mode, 2 verify.
ghost use Rattle.std.specs.Prelude.{◌≡◌, ◌≤◌, length};
ghost use Rattle.sheet.specs.Rules.{Accepted};
ghost use Rattle.parts.specs.Records.{IsHead, IsCounts};
ghost use Rattle.parts.specs.Again.{Restores, WholeKeys, WholeHead};

use crate::entries::{bit, write_number};
use crate::{Counts, Head};
use octets::{byte, number};

pub fn head(sheet: &[u8]) -> Head
    ensures { IsHead result sheet.now }
{
    let keys = [
        number(sheet, 18, 4) as u32,
        number(sheet, 22, 4) as u32,
        number(sheet, 26, 4) as u32,
    ];
    let flags = byte(sheet, 14);
    Head {
        serial: number(sheet, 6, 6),
        mask: number(sheet, 12, 2) as u16,
        programming: flags % 2 == 1,
        verify: flags / 2 % 2 == 1,
        address: number(sheet, 16, 2) as u16,
        keys,
        rules: byte(sheet, 30),
    }
}

// That the sheet is accepted stays a clause: the plain engine has a check of its own and shares no code with `sheet`, whose type says it.
pub fn counts(sheet: &[u8]) -> Counts
    requires { Accepted sheet.now }
    ensures { IsCounts result sheet.now }
{
    Counts {
        regions: byte(sheet, 1) as usize,
        properties: byte(sheet, 2) as usize,
        groups: byte(sheet, 3) as usize,
        users: byte(sheet, 15) as usize,
    }
}

// Three keys at three places, line by line: a loop would need the places again as an invariant, and is no plainer.
fn write_keys(sheet: &mut [u8], keys: [u32; 3])
    requires { 32 ≤ length sheet.old }
    ensures { Restores (WholeKeys keys) sheet.old sheet.new 18 30 }
{
    write_number(sheet, 18, 4, keys[0] as u64);
    write_number(sheet, 22, 4, keys[1] as u64);
    write_number(sheet, 26, 4, keys[2] as u64);
}

// The edition is 2: an accepted sheet has no other.
pub fn write_head(sheet: &mut [u8], head: Head, counts: Counts, n: usize)
    requires { 32 ≤ length sheet.old }
    ensures { Restores (WholeHead head counts n) sheet.old sheet.new 0 32 }
{
    let flags = bit(head.programming, 1) + bit(head.verify, 2);
    let keys = head.keys;
    write_number(sheet, 0, 1, 2);
    write_number(sheet, 1, 1, counts.regions as u64);
    write_number(sheet, 2, 1, counts.properties as u64);
    write_number(sheet, 3, 1, counts.groups as u64);
    write_number(sheet, 4, 2, n as u64);
    write_number(sheet, 6, 6, head.serial);
    write_number(sheet, 12, 2, head.mask as u64);
    write_number(sheet, 14, 1, flags as u64);
    write_number(sheet, 15, 1, counts.users as u64);
    write_number(sheet, 16, 2, head.address as u64);
    write_keys(sheet, keys);
    write_number(sheet, 30, 1, head.rules as u64);
    write_number(sheet, 31, 1, 0);
}
