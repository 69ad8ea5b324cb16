// Lines of text, for programs of cases. Each function takes any place: a part that is not there is empty.
#![tactic(auto)]

mod hex;
mod input;
mod out;
mod tally;
mod value;

ghost use Rattle.std.specs.Prelude.{◌≡◌, ◌+◌, ◌-◌, ◌<◌, ◌≤◌, ◌∷◌, ◌++◌, length, slice_index_or, IfSome};

pub use hex::{Hex, unhex};
pub use input::read_full;
pub use out::{Text, copy, say, text, write};
pub use tally::{Tally, is_remark};
pub use value::{digits, number};

// The part from a place up to another.
pub fn part(s: &[u8], from: usize, to: usize) -> &[u8] {
    s.get(from..to).unwrap_or(&[])
}

// The part from a place on.
pub fn rest(s: &[u8], from: usize) -> &[u8] {
    s.get(from..).unwrap_or(&[])
}

// The first so many bytes, or all where there are fewer.
pub fn first(s: &mut [u8], n: usize) -> &mut [u8] {
    let n = n.min(s.len());
    &mut s[..n]
}

// The place of the first such byte from a place on.
fn position(s: &[u8], from: usize, b: u8) -> Option<usize>
    ensures place { IfSome result (λ i. (from ≤ i) × (i < length s.now)) }
    ensures byte { IfSome result (λ i. slice_index_or s.now i b ≡ b) }
{
    let i = s.get(from..)?.iter().position(|&c| c == b)?;
    Some(from + i)
}

// The part before the first such byte and the part behind it.
pub fn split_once(s: &[u8], b: u8) -> Option<(&[u8], &[u8])>
    ensures parts { IfSome result (λ p. s.now ≡ p.0.now ++ b ∷ p.1.now) }
    ensures lengths { IfSome result (λ p. length p.0.now + 1 + length p.1.now ≡ length s.now) }
{
    let at = position(s, 0, b)?;
    Some((&s[..at], &s[at + 1..]))
}

// The same; all and nothing where there is no such byte.
pub fn parted(s: &[u8], b: u8) -> (&[u8], &[u8])
    ensures { length result.1.now ≤ length s.now - 1 }
{
    split_once(s, b).unwrap_or((s, &[]))
}

// The k-th of the pieces that a byte parts, counted from 0.
pub fn piece(s: &[u8], k: usize, sep: u8) -> &[u8] {
    s.split(|&c| c == sep).nth(k).unwrap_or(&[])
}

// The k-th word: the words are parted by single spaces.
pub fn word(s: &[u8], k: usize) -> &[u8] {
    piece(s, k, b' ')
}

// The pieces of a text, each up to the byte that ends it, or to the text's end.
#[derive(Drop)]
pub struct Pieces<'a> {
    pub text: &'a [u8],
    pub end: u8,
}

impl<'a> Pieces<'a> {
    pub fn lines(text: &'a [u8]) -> Pieces<'a>
        ensures { (result.text.now ≡ text.now) × (result.end ≡ 10) }
    {
        Pieces { text, end: b'\n' }
    }

    pub fn words(text: &'a [u8]) -> Pieces<'a>
        ensures { (result.text.now ≡ text.now) × (result.end ≡ 32) }
    {
        Pieces { text, end: b' ' }
    }
}

impl<'a> Iterator for Pieces<'a> {
    ghost use Rattle.std.specs.Iterator.{at_most};

    type Item = &'a [u8];

    ghost remaining = { λ s. at_most (length s.text.now) };

    fn next(&mut self) -> Option<&'a [u8]> {
        if self.text.is_empty() {
            return None;
        }
        let (piece, text) = parted(self.text, self.end);
        self.text = text;
        Some(piece)
    }
}
