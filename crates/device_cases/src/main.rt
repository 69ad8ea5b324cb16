// Plays the cases on standard input against the device. A line that starts with # or is empty is copied.
//   sheet HEX HEX ..    the sheet that each case from here on starts from, in any number of pieces
//   at WORDS : EVENT -> OUTCOME ANSWER CHANGES | SOURCE
//                       a case on that sheet: the words set it up (setup.rt), the event is played (play.rt), and what it
//                       gives is compared with what is wanted (want.rt): outcome, answer, sessions, and every byte of the
//                       sheet and of the answer buffer
//   then WORDS : ..     the same on the sheet and in the sessions that the case before left
// Each case is written after `ok`, or after DIFFERENT with what it gave and what was wanted, and in the end how many there were.
#![tactic(auto)]

use device::Sessions;
use image::Image;
use lines::{Pieces, Tally, is_remark, parted, read_full, say, unhex, word};
use play::{Event, play};
use setup::{Setup, found, start};
use show::Shown;
use want::wanted;

mod image;
mod play;
mod setup;
mod show;
mod want;

// The sheet that cases start from, the sheet and the sessions that the last case left, and the cases so far.
#[derive(Drop)]
struct Bench {
    base: Image,
    image: Image,
    sessions: Sessions,
    tally: Tally,
}

impl Bench {
    // A sheet to start from. What is no piece of it starts it anew.
    fn take_sheet(&mut self, pieces: &[u8]) -> Option<()> {
        let mut len = 0;
        for piece in Pieces::words(pieces) {
            len = match unhex(piece) {
                Some(bytes) => self.base.put(len, bytes.as_slice()),
                None => 0,
            };
        }
        if len == 0 {
            return None;
        }
        self.base.len = len;
        self.image.len = len;
        Some(())
    }

    // A case: set up, played, and what it gave compared with what is wanted. None where a word of it is not understood.
    fn case(&mut self, rt: &impl Print, line: &[u8], start: Setup) -> Option<()> {
        let mut setup = start;
        let (words, rest) = parted(line, b':');
        let (_, words) = parted(words, b' ');
        setup.take(&mut self.image, words)?;
        let (_, expected) = parted(rest, b'>');
        let (expected, _) = parted(expected, b'|');
        let want = wanted(expected, setup, self.image)?;
        let event = Event::parse(word(rest, 1))?;
        let mut out = [0xEE; 20];
        let done = play(event, setup, &mut self.image, &mut out);
        self.sessions = done.sessions;
        let met = want.is_met(done, &out, &self.image);
        self.tally.mark(rt, line, !met);
        if !met {
            let given = Shown {
                outcome: done.outcome,
                answer: &out,
                sessions: done.sessions,
                base: &self.base.bytes,
                sheet: &self.image.bytes,
            };
            let wanted = Shown {
                outcome: want.outcome,
                answer: &want.answer,
                sessions: want.sessions,
                base: &self.base.bytes,
                sheet: &want.image.bytes,
            };
            let _ = println!(rt; "   but got {given}");
            let _ = println!(rt; "   and not {wanted}");
        }
        Some(())
    }

    // A line that is no remark, by its first word. None where it does not say what to do.
    fn take(&mut self, rt: &impl Print, line: &[u8]) -> Option<()> {
        let (first, rest) = parted(line, b' ');
        match first {
            b"sheet" => {
                self.take_sheet(rest)?;
                say(rt, b"", line);
                Some(())
            }
            b"at" => {
                self.image = self.base;
                self.case(rt, line, found(start(true), false))
            }
            b"then" => self.case(rt, line, found(self.sessions, true)),
            _ => None,
        }
    }

    fn line(&mut self, rt: &impl Print, line: &[u8]) {
        if is_remark(line) {
            say(rt, b"", line);
        } else if self.take(rt, line).is_none() {
            self.tally.unclear(rt, line);
        }
    }
}

// Twice what the other programs of cases have: the cases are more than 64 KB.
fn main(rt: HostRuntime) {
    let mut text = [0u8; 131072];
    let n = read_full(&mut rt.stdin(), &mut text);
    let mut bench = Bench {
        base: Image::empty(),
        image: Image::empty(),
        sessions: start(false),
        tally: Tally::default(),
    };
    for line in Pieces::lines(&text[..n]) {
        bench.line(&rt, line);
    }
    bench.tally.end(&rt, n == text.len());
}
