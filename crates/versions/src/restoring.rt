// Restoring a version: counts and bodies of the sheet's properties become the version's.
ghost use Rattle.std.specs.Prelude.{◌≡◌, ◌+◌, ◌-◌, ◌*◌, ◌≤◌, ◌<◌, length};
ghost use Rattle.versions.specs.Refusal.{told_done};
ghost use Rattle.versions.specs.Restoring.{at_zero, same_byte, same_entry, low_count, gives_back, RestoredAs};
ghost use Rattle.versions.specs.Walk.{Extents};

use crate::Refusal;
use crate::layout::{FRONT, entry_at, property};
use crate::rules::check;
use crate::settings::{Extent, extent_of, give_back, long_of};
use crate::table::version;
use judge::Session;
use octets::word;
use sheet::Sheet;

// Whether a session is open at level 0.
#[tactic(auto, unfolding(crate::specs::Restoring::at_zero))]
fn at_zero(session: Session) -> bool
    ensures { result ≡ at_zero session }
{
    session.opened && session.level == 0
}

// This and the next two take sheet and version whole and the places of two entries, as the definitions do on which the theorems
// rest (`same_byte`, `same_entry`, `low_count`).

// Whether byte j of the entry at p of the sheet is that of the entry at q of the version, or one of the count.
fn same_byte(sheet: &[u8], p: usize, d: &[u8], q: usize, j: usize) -> bool
    requires { (p + 12 ≤ length sheet.now) × (q + 12 ≤ length d.now) × (length sheet.now ≤ 16384) × (q ≤ 16384) × (j < 12) }
    ensures { result ≡ same_byte sheet.now p d.now q j }
{
    (property::COUNT <= j && j < property::COUNT_END) || d[q + j] == sheet[p + j]
}

// Whether the entry at p of the sheet and that at q of the version are the same but for the count.
fn same_entry(sheet: &[u8], p: usize, d: &[u8], q: usize) -> bool
    requires { (p + 12 ≤ length sheet.now) × (q + 12 ≤ length d.now) × (length sheet.now ≤ 16384) × (q ≤ 16384) }
    ensures { result ≡ same_entry sheet.now p d.now q }
{
    (0..property::SIZE).all(|j| same_byte(sheet, p, d, q, j))
}

// Whether the count of the entry at q of the version is at most the maximum that the sheet's entry at p has.
#[tactic(auto, unfolding(crate::specs::Restoring::low_count))]
fn low_count(sheet: &[u8], p: usize, d: &[u8], q: usize) -> bool
    requires { (p + 12 ≤ length sheet.now) × (q + 12 ≤ length d.now) × (length sheet.now ≤ 16384) × (q ≤ 16384) }
    ensures { result ≡ low_count sheet.now p d.now q }
{
    word(d, q + property::COUNT) <= word(sheet, p + property::MAXIMUM)
}

// Whether a version can be given back to a sheet: refused for other entries, or a count above its maximum.
fn judge_version(sheet: &[u8], x: Extent, d: &[u8]) -> Result<(), Refusal>
    requires { Extents sheet.now x }
    ensures { told_done result ≡ gives_back sheet.now d.now }
{
    let n = x.count;
    let p = x.entries;
    if d.len() != long_of(x) || word(d, 0) as usize != n {
        return Err(Refusal::OtherEntries);
    }
    if !(0..n).all(|i| same_entry(sheet, p + property::SIZE * i, d, entry_at(i))) {
        return Err(Refusal::OtherEntries);
    }
    if !(0..n).all(|i| low_count(sheet, p + property::SIZE * i, d, entry_at(i))) {
        return Err(Refusal::HighCount);
    }
    Ok(())
}

// Restores the version with a number for a session: refused for a bad or an old sheet, a bad store, a number that is not kept,
// unless the session is open at level 0, for other entries, for a count above its maximum. A refusal changes nothing.
pub fn restore(
    session: Session,
    sheet: &mut [u8],
    store: &[u8],
    number: usize,
) -> Result<(), Refusal>
    ensures { RestoredAs session sheet.old store.now number (told_done result) sheet.new }
{
    let known = Sheet::new(&sheet[..])?;
    check(store)?;
    let Some(v) = version(store, number) else {
        return Err(Refusal::NotKept);
    };
    if !at_zero(session) {
        return Err(Refusal::NotAtZero);
    }
    let x = extent_of(known);
    let d = &store[v.at..v.at + v.long];
    judge_version(&sheet[..], x, d)?;
    give_back(sheet, x, d);
    Ok(())
}
