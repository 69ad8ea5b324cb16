// Saving a version: a row and a body are appended.
ghost use Rattle.std.specs.Prelude.{◌≡◌, ◌+◌, ◌-◌, ◌*◌, ◌≤◌, ◌<◌, length};
ghost use Rattle.octets.specs.Splice.{splice as spliced};
ghost use Rattle.octets.specs.Moved.{moved};
ghost use Rattle.versions.specs.Store.{table_end as table_ends, row_of};
ghost use Rattle.versions.specs.Saving.{SavedAs};
ghost use Rattle.versions.specs.Settings.{settings_of};
ghost use Rattle.versions.specs.Steps.{appended};
ghost use Rattle.versions.specs.Walk.{Appendable};
ghost use Rattle.versions.specs.Refusal.{told_saved};

use crate::Refusal;
use crate::layout::{PLACES, SETTINGS, head, row, table_end};
use crate::linking::link;
use crate::rules::check;
use crate::settings::{Extent, extent_of, long_of, put_settings};
use crate::table::bodies_end;
use octets::{put, shift, splice, word};
use sheet::Sheet;

// A row at the end of a table of n, the bodies that end at `end` moved up; its offset is not set yet.
fn make_row(s: &mut [u8], n: usize, end: usize, number: u16, long: u16)
    requires { (n ≤ 8) × (table_ends n ≤ end) × (end + 8 ≤ length s.old) }
    ensures { s.new ≡ spliced (moved s.old (table_ends n) (table_ends n + 8) (end - table_ends n)) (table_ends n) (row_of number 0 long) }
{
    let t = table_end(n);
    shift(s, t, t + row::SIZE, end - t);
    let mut made = [0; row::SIZE];
    put(&mut made, row::NUMBER, 2, number as u64);
    put(&mut made, row::KIND, 2, SETTINGS as u64);
    put(&mut made, row::LONG, 2, long as u64);
    splice(s, t, &made);
}

// A row and a body at the end of n, the bodies ending at `end`; the head and the offsets.
fn append(s: &mut [u8], n: usize, end: usize, number: u16, long: u16, sheet: &[u8], x: Extent)
    requires { Appendable s.old sheet.now n end long x }
    ensures { s.new ≡ appended s.old n end number (settings_of sheet.now) }
{
    make_row(s, n, end, number, long);
    put_settings(s, end + row::SIZE, sheet, x);
    put(s, head::COUNT, 2, (n + 1) as u64);
    put(s, head::LAST, 2, number as u64);
    link(s, n + 1);
}

// The outcome, and the number given, 0 on a refusal, with C's layout.
#[repr(C)]
#[derive(Clone, Copy)]
pub struct Saved {
    pub outcome: u8,
    pub number: u16,
}

impl From<Result<u16, Refusal>> for Saved {
    ghost from_gives = { λ r s. s ≡ told_saved r };

    fn from(saved: Result<u16, Refusal>) -> Saved {
        match saved {
            Ok(number) => Saved { outcome: 0, number },
            Err(refusal) => Saved {
                outcome: refusal.number(),
                number: 0,
            },
        }
    }
}

// Saves the properties of the sheet under the next number, which it gives: refused for a bad or an old sheet, a bad store, no
// number left, no place left, no room left. A refusal changes nothing.
pub fn save(sheet: &[u8], store: &mut [u8]) -> Result<u16, Refusal>
    ensures { SavedAs sheet.now store.old (told_saved result) store.new }
{
    let known = Sheet::new(sheet)?;
    check(&store[..])?;
    let last = word(&store[..], head::LAST);
    if last == u16::MAX {
        return Err(Refusal::Number);
    }
    let n = word(&store[..], head::COUNT) as usize;
    if n == PLACES {
        return Err(Refusal::Place);
    }
    let end = bodies_end(&store[..], n);
    let x = extent_of(known);
    let long = long_of(x);
    if store.len() < end + row::SIZE + long {
        return Err(Refusal::Room);
    }
    let number = last + 1;
    append(store, n, end, number, long as u16, sheet, x);
    Ok(number)
}
