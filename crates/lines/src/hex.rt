// Bytes as pairs of hex digits, `-` for none.
ghost use Rattle.std.specs.Prelude.{◌≡◌, [], None};

use crate::digits;
use arrayvec::ArrayVec;
use std::fmt;

// The small digit of a number below 16. By `{b:02x}` each byte takes a hundred instructions more.
fn digit(x: u8) -> char {
    char::from(if x < 10 { b'0' + x } else { b'a' - 10 + x % 16 })
}

#[derive(Clone, Copy)]
pub struct Hex<'a>(pub &'a [u8]);

impl fmt::Display for Hex<'_> {
    fn fmt<W: fmt::Write>(&self, f: &mut fmt::Formatter<W>) -> fmt::Result {
        if self.0.is_empty() {
            return write!(f, "-");
        }
        for b in self.0 {
            f.write_char(digit(b / 16))?;
            f.write_char(digit(b % 16))?;
        }
        Ok(())
    }
}

// The bytes so written, in small letters.
pub fn unhex(s: &[u8]) -> Option<ArrayVec<u8, 64>>
    ensures { s.now ≡ [] → result ≡ None }
{
    let mut bytes = ArrayVec::new();
    if matches!(s, b"-") {
        return Some(bytes);
    }
    if s.is_empty() || s.len() % 2 != 0 || s.iter().any(|c| c.is_ascii_uppercase()) {
        return None;
    }
    for pair in s.chunks(2) {
        bytes.try_push(digits(pair, 16)?).ok()?;
    }
    Some(bytes)
}
