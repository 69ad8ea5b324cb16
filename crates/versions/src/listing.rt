// The versions that a store keeps, one by one.
ghost use Rattle.std.specs.Prelude.{◌≡◌, ◌≤◌, IfSome};
ghost use Rattle.versions.specs.Kept.{kept_of, listed_flat};

use crate::layout::{head, row, table_end};
use crate::rules::check;
use octets::word;

// A version's number, and the length of its body, with C's layout.
#[repr(C)]
#[derive(Clone, Copy)]
pub struct Listed {
    pub number: u16,
    pub long: u16,
}

// The k-th version that a store keeps, the first being 0.
pub fn kept(store: &[u8], k: usize) -> Option<Listed>
    ensures flat { listed_flat result ≡ kept_of store.now k }
    ensures known { IfSome result (λ v. 1 ≤ v.number) }
{
    let Ok(()) = check(store) else {
        return None;
    };
    if word(store, head::COUNT) as usize <= k {
        return None;
    }
    let p = table_end(k);
    Some(Listed {
        number: word(store, p + row::NUMBER),
        long: word(store, p + row::LONG),
    })
}
