// Reads a sheet from standard input, and writes OK, OLD or the rule that it breaks.
#![tactic(auto)]

ghost use Rattle.std.specs.Prelude.{◌≡◌, ◌≤◌, IfOk, length};
ghost use Rattle.sheet.specs.Fault.{told};
ghost use Rattle.sheet_check.specs.Line.{line_of, said_of, Fronts};

use octets::splice;
use sheet::Fault;
use std::io;
use std::io::Read;

// What failed, and why, as a line of standard error.
fn fail(rt: &impl Eprint, what: &str, why: io::Error) {
    let _ = eprintln!(rt; "sheet_check: {what}: {why}");
}

// How many bytes came before the input ended or the buffer was full.
fn read_all(from: &mut impl Read, buf: &mut [u8]) -> io::Result<usize>
    ensures { IfOk result (λ n. n ≤ length buf.new) }
{
    let mut n = 0;
    // No count: a read gives as many bytes as it likes.
    while n < buf.len() {
        let more = from.read(&mut buf[n..])?;
        if more == 0 {
            return Ok(n);
        }
        n += more;
    }
    Ok(n)
}

// A text in front of a buffer: how many bytes it has.
#[tactic(auto, using(crate::proofs::Lines::front))]
fn put(text: &[u8], out: &mut [u8]) -> usize
    requires { length text.now ≤ length out.old }
    ensures { Fronts text.now result out.new }
{
    splice(out, 0, text);
    text.len()
}

// The line of a verdict, in front of a buffer: how many bytes it has.
fn line(verdict: Result<(), Fault>, out: &mut [u8]) -> usize
    requires { length out.old ≡ 4 }
    ensures { Fronts (line_of (told verdict)) result out.new }
{
    match verdict {
        Ok(()) => put(b"OK\n", out),
        Err(Fault::Old) => put(b"OLD\n", out),
        Err(rule) => put(&[b'S', b'0' + rule.number(), b'\n'], out),
    }
}

// What is said of a sheet, in front of a buffer.
fn said(sheet: &[u8], out: &mut [u8]) -> usize
    requires { length out.old ≡ 4 }
    ensures { Fronts (said_of sheet.now) result out.new }
{
    line(sheet::check(sheet), out)
}

fn say(rt: &(impl Print + Eprint), line: &[u8]) {
    if let Err(why) = rt.write_all(line) {
        fail(rt, "standard output", why);
    }
}

// There is room for one byte more than the longest sheet has, so that one that is too long shows.
fn main(rt: HostRuntime) {
    let mut buf = [0u8; 16385];
    let mut out = [0u8; 4];
    match read_all(&mut rt.stdin(), &mut buf) {
        Ok(n) => {
            let many = said(&buf[..n], &mut out);
            say(&rt, &out[..many]);
        }
        Err(why) => fail(&rt, "standard input", why),
    }
}
