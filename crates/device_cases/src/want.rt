// What a case is to give: ` OUTCOME ANSWER CHANGES `. The answer is hex, or - for none. The changes are words as those that set
// a case up (setup.rt), of the sessions and the sheet alone:
//   open=N, level=N     what is different about the session of connection 0
//   open1=N, level1=N   what is different about that of connection 1
//   PLACE=HEX           what is different in the sheet
use crate::image::Image;
use crate::setup::{Setup, found};
use device::{Done, Sessions};
use judge::Session;
use lines::{copy, number, parted, unhex};

// The outcome, how many bytes the answer has, the whole answer buffer, and the sessions and the sheet afterwards.
#[derive(Clone, Copy)]
pub struct Want {
    pub outcome: u8,
    pub count: usize,
    pub answer: [u8; 20],
    pub sessions: Sessions,
    pub image: Image,
}

// What is wanted of a case set up; none where a word is not understood, or changes what a request comes with.
pub(crate) fn wanted(text: &[u8], setup: Setup, image: Image) -> Option<Want> {
    let (outcome, text) = parted(text.strip_prefix(b" ")?, b' ');
    let (hex, changes) = parted(text, b' ');
    let bytes = unhex(hex)?;
    let mut answer = [0xEE; 20];
    copy(&mut answer, bytes.as_slice());
    let mut image = image;
    let old = found(setup.sessions, true);
    let mut left = old;
    left.take(&mut image, changes)?;
    if left.mode != old.mode
        || left.connection != old.connection
        || left.group != old.group
        || left.room != old.room
    {
        return None;
    }
    Some(Want {
        outcome: number(outcome)?,
        count: bytes.len().min(20),
        answer,
        sessions: left.sessions,
        image,
    })
}

fn is_same(a: Session, b: Session) -> bool {
    a.opened == b.opened && a.level == b.level
}

impl Want {
    pub(crate) fn is_met(&self, done: Done, answer: &[u8; 20], image: &Image) -> bool {
        let Sessions { first, second } = self.sessions;
        self.outcome == done.outcome
            && self.count == done.count
            && is_same(first, done.sessions.first)
            && is_same(second, done.sessions.second)
            && self.answer == *answer
            && self.image.bytes == image.bytes
    }
}
