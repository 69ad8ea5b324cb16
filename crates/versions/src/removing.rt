// Removing a version: its row and its body are taken out, what stands after them moves down.
ghost use Rattle.std.specs.Prelude.{◌≡◌, ◌+◌, ◌≤◌, ◌<◌, length};
ghost use Rattle.versions.specs.Removing.{Removed};
ghost use Rattle.versions.specs.Steps.{cut_out, closed, taken_out};
ghost use Rattle.versions.specs.Walk.{Tabled, Chosen, Stands};
ghost use Rattle.versions.specs.Refusal.{told_done};

use crate::Refusal;
use crate::layout::{head, row, table_end};
use crate::linking::link;
use crate::rules::check;
use crate::table::{bodies_end, find};
use octets::{fill, put, shift, word};

// What stands where (`Tabled`, `Stands`) stays a clause: it speaks of the lent store, which each step changes.
// The row at p and the body of l bytes at a, the bodies ending at `end`.
#[tactic(auto, unfolding(crate::specs::Steps::cut_out))]
fn cut(s: &mut [u8], p: usize, a: usize, l: usize, end: usize)
    requires { Stands s.old p a l end }
    ensures { s.new ≡ cut_out s.old p a l end }
{
    shift(s, p + row::SIZE, p, a - (p + row::SIZE));
    shift(s, a + l, a - row::SIZE, end - (a + l));
    fill(s, end - (row::SIZE + l), row::SIZE + l, 0);
}

// The same, with the count of the n - 1 that are left and their offsets.
#[tactic(auto, unfolding(crate::specs::Steps::closed))]
fn close_up(s: &mut [u8], n: usize, p: usize, a: usize, l: usize, end: usize)
    requires { Tabled s.old n × (1 ≤ n) × Stands s.old p a l end }
    ensures { s.new ≡ closed s.old n p a l end }
{
    cut(s, p, a, l, end);
    put(s, head::COUNT, 2, (n - 1) as u64);
    link(s, n - 1);
}

// Version i of n.
fn take_out(s: &mut [u8], n: usize, i: usize)
    requires { Chosen s.old n i }
    ensures { s.new ≡ taken_out s.old n i }
{
    let p = table_end(i);
    let a = word(&s[..], p + row::OFFSET) as usize;
    let l = word(&s[..], p + row::LONG) as usize;
    let end = bodies_end(&s[..], n);
    close_up(s, n, p, a, l, end);
}

// Removes the version with a number: refused for a bad store, or a number that is not kept. A refusal changes nothing.
pub fn remove(store: &mut [u8], number: usize) -> Result<(), Refusal>
    ensures { Removed store.old number (told_done result) store.new }
{
    check(&store[..])?;
    let n = word(&store[..], head::COUNT) as usize;
    let Some(i) = find(&store[..], n, number) else {
        return Err(Refusal::NotKept);
    };
    take_out(store, n, i);
    Ok(())
}
