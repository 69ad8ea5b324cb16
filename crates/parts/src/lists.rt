// The entries of a kind: n of them taken from a place on, and written there again.
ghost use Rattle.std.specs.Prelude.{◌≡◌, ℕ, ◌+◌, ◌*◌, ◌≤◌, ◌<◌, length, get_or};
ghost use Rattle.parts.specs.Again.{Restores, Each};

use crate::entries::Entry;

pub fn entries_from<E: Entry, const N: usize>(sheet: &[u8], at: usize, n: usize) -> [E; N]
    requires { (n ≤ N) × (at + E.SIZE * n ≤ length sheet.now) × (length sheet.now ≤ 16384) }
    ensures { (length result ≡ N) × ((i : ℕ) → i < n → E.is (get_or result i E.NONE) sheet.now (at + E.SIZE * i)) }
{
    let mut entries = [E::NONE; N];
    for i in 0..n {
        entries[i] = E::read(sheet, at + E::SIZE * i);
    }
    entries
}

pub fn write_entries<E: Entry>(sheet: &mut [u8], at: usize, entries: &[E])
    requires { at + E.SIZE * length entries.now ≤ length sheet.old }
    ensures { Restores (Each (length entries.now) (λ i s. E.whole (get_or entries.now i E.NONE) (at + E.SIZE * i) s)) sheet.old sheet.new at (at + E.SIZE * length entries.now) }
{
    for (i, entry) in entries.iter().enumerate() {
        entry.write(sheet, at + E::SIZE * i);
    }
}
