// Marks: of each byte of a sheet, and of each level, the number of the event after which it was another last.
#![tactic(auto)]

ghost use Rattle.std.specs.Prelude.{◌+◌, ◌≤◌, ◌≡◌, length};
ghost use Rattle.account.specs.Marks.{mark_of, Caught, Levelled, Markable, Marked};

use device::{Changed, Run, Sessions};

// The mark of what was b and is a.
fn mark_of(b: u8, a: u8, old: u32, number: u32) -> u32
    ensures { result ≡ mark_of b a old number }
{
    if a == b { old } else { number }
}

// Every byte of a part that is another than it was seen before is marked with the number, and seen.
fn catch_up(marks: &mut [u32], seen: &mut [u8], sheet: &[u8], part: Run, number: u32)
    requires { (length seen.old ≡ length sheet.now) × (length sheet.now ≤ length marks.old) × (part.offset + part.length ≤ length sheet.now) }
    ensures { Caught sheet.now number part.offset (part.offset + part.length) seen.old marks.old seen.new marks.new }
{
    let from = part.offset as usize;
    for i in from..from + part.length as usize {
        marks[i] = mark_of(seen[i], sheet[i], marks[i], number);
        seen[i] = sheet[i];
    }
}

// The marks of both levels, which stand from `at` on.
fn mark_levels(marks: &mut [u32], at: usize, old: Sessions, new: Sessions, number: u32)
    requires { at + 2 ≤ length marks.old }
    ensures { Levelled old new number at marks.old marks.new }
{
    marks[at] = mark_of(old.first.level, new.first.level, marks[at], number);
    marks[at + 1] = mark_of(old.second.level, new.second.level, marks[at + 1], number);
}

// What an event changed is marked with its number: of the parts that it names each byte that is another than was seen, and each
// level that is. Then the sheet is seen.
pub fn mark(
    marks: &mut [u32],
    seen: &mut [u8],
    sheet: &[u8],
    changed: Changed,
    old: Sessions,
    new: Sessions,
    number: u32,
)
    requires { Markable seen.old sheet.now changed marks.old }
    ensures { Marked old new number sheet.now seen.old marks.old seen.new marks.new }
{
    catch_up(marks, seen, sheet, changed.first, number);
    catch_up(marks, seen, sheet, changed.second, number);
    mark_levels(marks, sheet.len(), old, new, number);
}
