// Runs the cases on standard input over the crate `sheet`. A line that starts with # or is empty is copied.
//   base WORDS                      the base is the sheet that the words draw up from the base before (words.rt)
//   WORDS -> ANSWER | WHAT          a case: the words change a copy of the base, and the answer is its rule
//   WORDS ? QUESTION -> ANSWER ..   the same, and the answer is that of a lookup (ask.rt)
// Each case is written after `ok`, or after DIFFERENT with what it gave, and in the end how many there were.
#![tactic(auto)]

use ask::ask;
use draft::Draft;
use lines::{Pieces, Tally, Text, is_remark, parted, read_full, say, text, word};

mod ask;
mod draft;
mod lay;
mod make;
mod names;
mod words;

// The base, the sheet of a case, and the cases so far.
#[derive(Drop)]
struct Bench {
    base: Draft,
    draft: Draft,
    tally: Tally,
}

impl Bench {
    // The answer to what stands before a case's arrow.
    fn answer(&mut self, case: &[u8]) -> Option<Text> {
        let (words, question) = parted(case, b'?');
        self.draft.copy(&self.base);
        self.draft.take(words)?;
        Some(text(ask(self.draft.sheet(), question)?))
    }

    fn case(&mut self, rt: &impl Print, line: &[u8]) {
        let (case, rest) = parted(line, b'-');
        let got = self.answer(case).unwrap_or(text("line not understood"));
        self.tally.tell(rt, line, word(rest, 1), got.as_slice());
    }

    fn take_base(&mut self, rt: &impl Print, line: &[u8], words: &[u8]) {
        match self.base.take(words) {
            Some(()) => say(rt, b"", line),
            None => {
                self.base.clear();
                self.tally.unclear(rt, line);
            }
        }
    }

    fn line(&mut self, rt: &impl Print, line: &[u8]) {
        match parted(line, b' ') {
            _ if is_remark(line) => say(rt, b"", line),
            (b"base", words) => self.take_base(rt, line, words),
            _ => self.case(rt, line),
        }
    }
}

// There is room for sheets that are a little too long.
fn main(rt: HostRuntime) {
    let mut text = [0u8; 65536];
    let n = read_full(&mut rt.stdin(), &mut text);
    let mut bench = Bench {
        base: Draft::new(),
        draft: Draft::new(),
        tally: Tally::default(),
    };
    for line in Pieces::lines(&text[..n]) {
        bench.line(&rt, line);
    }
    bench.tally.end(&rt, n == text.len());
}
