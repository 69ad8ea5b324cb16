// Bytes, big-endian numbers, and runs of bytes replaced and moved in a lent slice.
#![tactic(auto)]

ghost use Rattle.std.specs.Prelude.{◌≡◌, ◌+◌, ◌≤◌, ◌<◌, ◌^◌, length, replicate};
ghost use Rattle.octets.specs.Bytes.{IsNum, bytes_of};
ghost use Rattle.octets.specs.Splice.{splice as spliced};
ghost use Rattle.octets.specs.Moved.{moved};

// The byte at a place, and 0 past the end.
#[tactic(auto, unfolding(crate::specs::Bytes::num_at))]
pub fn byte(s: &[u8], at: usize) -> u8
    ensures { IsNum s.now at 1 256 result }
{
    if at < s.len() { s[at] } else { 0 }
}

// The number in the two bytes from a place.
#[tactic(auto, unfolding(crate::specs::Bytes::num_at))]
pub fn word(s: &[u8], at: usize) -> u16
    requires { at + 1 < length s.now }
    ensures { IsNum s.now at 2 65536 result }
{
    u16::from_be_bytes([s[at], s[at + 1]])
}

// Widths of at most 6 stay a clause: a type of widths would be made of a literal at each call.
// The number in the w bytes from a place.
pub fn number(s: &[u8], at: usize, w: usize) -> u64
    requires { (at ≤ 16384) × (w ≤ 6) }
    ensures { IsNum s.now at w (256 ^ w) result }
{
    let mut x: u64 = 0;
    for i in 0..w {
        x = x * 256 + byte(s, at + i) as u64;
    }
    x
}

// dst with the bytes from a place on replaced by src's. Copied and moved here byte by byte: the library's copies become calls of
// memmove, which the archives for C would ask of their host.
pub fn splice(dst: &mut [u8], at: usize, src: &[u8])
    requires { at + length src.now ≤ length dst.old }
    ensures { dst.new ≡ spliced dst.old at src.now }
{
    for j in 0..src.len() {
        dst[at + j] = src[j];
    }
}

// dst with the n bytes from a place on replaced by b.
#[tactic(auto, unfolding(crate::specs::Splice::splice))]
pub fn fill(dst: &mut [u8], at: usize, n: usize, b: u8)
    requires { at + n ≤ length dst.old }
    ensures { dst.new ≡ spliced dst.old at (replicate n b) }
{
    dst[at..at + n].fill(b);
}

// dst with the w bytes from a place on replaced by those of x.
pub fn put(dst: &mut [u8], at: usize, w: usize, x: u64)
    requires { (at + w ≤ length dst.old) × (w ≤ 6) }
    ensures { dst.new ≡ spliced dst.old at (bytes_of w x) }
{
    let mut y = x;
    for i in (0..w).rev() {
        dst[at + i] = (y % 256) as u8;
        y /= 256;
    }
}

// The n bytes at `from` moved down to `to`: the first byte first.
fn move_down(s: &mut [u8], from: usize, to: usize, n: usize)
    requires { (to ≤ from) × (from + n ≤ length s.old) }
    ensures { s.new ≡ moved s.old from to n }
{
    for j in 0..n {
        s[to + j] = s[from + j];
    }
}

// The n bytes at `from` moved up to `to`: the last byte first.
fn move_up(s: &mut [u8], from: usize, to: usize, n: usize)
    requires { (from ≤ to) × (to + n ≤ length s.old) }
    ensures { s.new ≡ moved s.old from to n }
{
    for j in (0..n).rev() {
        s[to + j] = s[from + j];
    }
}

// s with the n bytes that stand at `from` also at `to`, up or down, though old and new place may overlap.
pub fn shift(s: &mut [u8], from: usize, to: usize, n: usize)
    requires { (from + n ≤ length s.old) × (to + n ≤ length s.old) }
    ensures { s.new ≡ moved s.old from to n }
{
    if to <= from {
        move_down(s, from, to, n);
    } else {
        move_up(s, from, to, n);
    }
}
