// What a version holds of a sheet: where its properties stand, their bytes put into a store and given back.
ghost use Rattle.std.specs.Prelude.{◌≡◌, ◌+◌, ◌-◌, ◌*◌, ◌≤◌, ◌<◌, length};
ghost use Rattle.octets.specs.Splice.{splice as spliced};
ghost use Rattle.versions.specs.Settings.{settings_of, restored, front, entries_long, bodies_long};
ghost use Rattle.versions.specs.Walk.{Extents};

use crate::layout::{FRONT, entry_at, property};
use octets::{put, splice};
use sheet::{Kind, Sheet};

// Where the entries of the properties stand in a sheet, and their bodies. The sheet stays beside it: give_back writes to it.
#[derive(Clone, Copy)]
pub struct Extent {
    pub count: usize,
    pub entries: usize,
    pub from: usize,
    pub to: usize,
}

// Where the properties of a sheet stand.
pub fn extent_of(sheet: Sheet<'_>) -> Extent
    ensures { Extents sheet.entry.bytes.now result }
{
    let n = sheet.count(Kind::Properties);
    if n == 0 {
        return Extent {
            count: 0,
            entries: 0,
            from: 0,
            to: 0,
        };
    }
    let first = sheet.property(0);
    let last = sheet.property(n - 1);
    Extent {
        count: n,
        entries: first.place,
        from: first.offset,
        to: last.offset + last.element * last.maximum,
    }
}

// How long the body of a version is.
pub fn long_of(x: Extent) -> usize
    requires { (x.count ≤ 64) × (x.from ≤ x.to) × (x.to ≤ 16384) }
    ensures { (result ≡ 2 + (12 * x.count + (x.to - x.from))) × (result < 65536) }
{
    entry_at(x.count) + (x.to - x.from)
}

// The properties of a sheet, into a store from a place on.
pub fn put_settings(s: &mut [u8], at: usize, sheet: &[u8], x: Extent)
    requires { Extents sheet.now x × (at + length (settings_of sheet.now) ≤ length s.old) }
    ensures { s.new ≡ spliced s.old at (settings_of sheet.now) }
{
    put(s, at, FRONT, x.count as u64);
    let entries = &sheet[x.entries..x.entries + property::SIZE * x.count];
    splice(s, at + FRONT, entries);
    splice(s, at + entry_at(x.count), &sheet[x.from..x.to]);
}

// Entries and bodies of a version, back into the sheet.
pub fn give_back(sheet: &mut [u8], x: Extent, d: &[u8])
    requires { Extents sheet.old x × (length d.now ≡ front + entries_long sheet.old + bodies_long sheet.old) }
    ensures { sheet.new ≡ restored sheet.old d.now }
{
    let bodies = entry_at(x.count);
    splice(sheet, x.entries, &d[FRONT..bodies]);
    splice(sheet, x.from, &d[bodies..]);
}
