// Runs the cases on standard input: a line that starts with # is copied, `codes` is the whole code table, and a case is
//   read HEX -> ANSWER | SOURCE            the answer is 0 and the PDU in words, or a number
//   write PDU -> ANSWER | SOURCE           into 20 bytes; the answer is 0 and the bytes, or a number
//   into ROOM PDU -> ANSWER | SOURCE       the same into fewer bytes
// It copies each case after `ok`, or after `DIFFERENT` with what it got, and says how many there were.
#![tactic(auto)]

use lines::{Pieces, Tally, is_remark, read_full, say};

mod cases;
mod codes;
mod words;

// The code table; each code that is wrong counts as different.
fn with_table(rt: &impl Print, tally: &mut Tally) {
    let wrong = codes::table(rt);
    let _ = println!(rt;
        "1024 codes, {wrong} different with the top six bits set, or written again"
    );
    tally.different = tally.different.wrapping_add(wrong);
}

fn with_case(rt: &impl Print, line: &[u8], tally: &mut Tally) {
    let case = cases::case(line);
    tally.count(case.is_err());
    match case {
        Ok(()) => say(rt, b"ok ", line),
        Err(got) => {
            say(rt, b"DIFFERENT: ", line);
            say(rt, b"got: ", got.as_slice());
        }
    }
}

fn with_line(rt: &impl Print, line: &[u8], tally: &mut Tally) {
    match line {
        b"codes" => with_table(rt, tally),
        _ if is_remark(line) => say(rt, b"", line),
        _ => with_case(rt, line, tally),
    }
}

fn main(rt: HostRuntime) {
    let mut text = [0u8; 65536];
    let n = read_full(&mut rt.stdin(), &mut text);
    let mut tally = Tally::default();
    for line in Pieces::lines(&text[..n]) {
        with_line(&rt, line, &mut tally);
    }
    say(&rt, b"", b"");
    tally.end(&rt, n == text.len());
}
