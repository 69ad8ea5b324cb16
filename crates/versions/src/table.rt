// The table of a store: the row that has a number, its version, and where the bodies end.
ghost use Rattle.std.specs.Prelude.{◌≡◌};
ghost use Rattle.versions.specs.Rules.{Passes};
ghost use Rattle.versions.specs.Walk.{Tabled, FoundIn, Ended, Placed};

use crate::layout::{head, row, table_end};
use octets::word;

// The row of n that has the number.
pub fn find(s: &[u8], n: usize, number: usize) -> Option<usize>
    requires { Tabled s.now n }
    ensures { FoundIn s.now n number result }
{
    for i in 0..n {
        if word(s, table_end(i) + row::NUMBER) as usize == number {
            return Some(i);
        }
    }
    None
}

// Where the bodies of n versions end.
pub fn bodies_end(s: &[u8], n: usize) -> usize
    requires { Tabled s.now n }
    ensures { Ended s.now n result }
{
    let mut at = table_end(n);
    for i in 0..n {
        at += word(s, table_end(i) + row::LONG) as usize;
    }
    at
}

// Where the body of a version stands in a store, and how long it is.
#[derive(Clone, Copy)]
pub struct Place {
    pub at: usize,
    pub long: usize,
}

// The version with a number.
pub fn version(store: &[u8], number: usize) -> Option<Place>
    requires { Passes store.now }
    ensures { Placed store.now number result }
{
    let i = find(store, word(store, head::COUNT) as usize, number)?;
    let p = table_end(i);
    Some(Place {
        at: word(store, p + row::OFFSET) as usize,
        long: word(store, p + row::LONG) as usize,
    })
}
