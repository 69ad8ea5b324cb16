// Whether a store is good.
ghost use Rattle.std.specs.Prelude.{◌≡◌, ◌+◌, ◌*◌, ◌≤◌, ◌<◌, length};
ghost use Rattle.sheet.specs.Demand.{Tells};
ghost use Rattle.versions.specs.Refusal.{told};
ghost use Rattle.versions.specs.Rules.{head_demands, row_demands, end_demands, all_rows, store_rule};
ghost use Rattle.versions.specs.Row as row;
ghost use Rattle.versions.specs.Walk.{Headed};

use crate::Refusal;
use crate::layout::{LONGEST, PLACES, SETTINGS, head, row, table_end};
use octets::{number, word};

fn head_rule(s: &[u8]) -> Result<(), Refusal>
    ensures { Tells (told result) (head_demands s.now) }
{
    if s.len() < head::SIZE || LONGEST < s.len() {
        return Err(Refusal::Store);
    }
    let count = word(s, head::COUNT) as usize;
    if PLACES < count || number(s, head::ZEROS, 4) != 0 || s.len() < table_end(count) {
        return Err(Refusal::Store);
    }
    Ok(())
}

// The row at p, whose number is to be at least `floor` and whose body is to start at `at`.
fn row_rule(s: &[u8], p: usize, floor: usize, at: usize) -> Result<(), Refusal>
    requires { p + row.size ≤ length s.now }
    ensures { Tells (told result) (row_demands s.now p floor at) }
{
    if (word(s, p + row::NUMBER) as usize) < floor
        || word(s, p + row::KIND) != SETTINGS
        || word(s, p + row::OFFSET) as usize != at
    {
        return Err(Refusal::Store);
    }
    Ok(())
}

// After the last row.
fn end_rule(s: &[u8], floor: usize, at: usize) -> Result<(), Refusal>
    requires { 8 ≤ length s.now }
    ensures { Tells (told result) (end_demands s.now floor at) }
{
    if word(s, head::LAST) as usize + 1 < floor || s.len() < at {
        return Err(Refusal::Store);
    }
    Ok(())
}

// Row by row.
fn rows_rule(s: &[u8]) -> Result<(), Refusal>
    requires { Headed s.now }
    ensures { told result ≡ all_rows s.now }
{
    let n = word(s, head::COUNT) as usize;
    let mut floor = 1;
    let mut at = table_end(n);
    for i in 0..n {
        let p = table_end(i);
        row_rule(s, p, floor, at)?;
        floor = word(s, p + row::NUMBER) as usize + 1;
        at += word(s, p + row::LONG) as usize;
    }
    end_rule(s, floor, at)
}

// Refused unless the store is good.
pub fn check(store: &[u8]) -> Result<(), Refusal>
    ensures { told result ≡ store_rule store.now }
{
    head_rule(store)?;
    rows_rule(store)
}
