// Bytes copied, and text written to standard output. A write that fails is passed over: nothing is said of it.
ghost use Rattle.std.specs.Prelude.{◌≡◌, ◌++◌, take, drop, length};

use arrayvec::ArrayVec;
use std::fmt::Display;
use std::io::Write;

pub type Text = ArrayVec<u8, 256>;

// The text of a value, or its first 256 bytes.
pub fn text<D: Display + Drop>(value: D) -> Text {
    let mut text = Text::new();
    let _ = write!(text, "{value}");
    text
}

// As many bytes as there are, or as there is room for.
pub fn copy(to: &mut [u8], from: &[u8])
    ensures { to.new ≡ take (length to.old) from.now ++ drop (length from.now) to.old }
{
    let n = from.len().min(to.len());
    to[..n].copy_from_slice(&from[..n]);
}

pub fn write(rt: &impl Print, bytes: &[u8]) {
    let _ = rt.write_all(bytes);
}

pub fn say(rt: &impl Print, before: &[u8], line: &[u8]) {
    write(rt, before);
    write(rt, line);
    write(rt, b"\n");
}
