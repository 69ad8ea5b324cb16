// The words that set a case up:
//   mode=N       3 where nothing is said
//   conn=N       the connection that the event names; 0
//   open=0, open=1   the session of connection 0; after `at` it is open in mode 3 and closed in the others
//   level=N      its level; after `at` 3
//   open1=N, level1=N   the same of connection 1; after `at` it is closed at 3
//   group=N      the group address
//   buf=N        the length of the answer buffer; 16
//   button=on, button=off, verify=on, verify=off   the bits of the sheet's byte 14
//   PLACE=HEX    other bytes of the sheet
// Numbers are decimal, or hex after 0x.
use crate::image::Image;
use device::Sessions;
use judge::Session;
use lines::{Pieces, number, parted};

// What a request comes with, and whether it follows on a case before it.
#[derive(Clone, Copy)]
pub struct Setup {
    pub sessions: Sessions,
    pub mode: u8,
    pub connection: u8,
    pub group: u16,
    pub room: usize,
    pub later: bool,
}

// The sessions that a case starts from, both at level 3: that of connection 0 open or not, that of connection 1 closed.
pub(crate) fn start(opened: bool) -> Sessions {
    Sessions {
        first: Session { opened, level: 3 },
        second: Session {
            opened: false,
            level: 3,
        },
    }
}

pub(crate) fn found(sessions: Sessions, later: bool) -> Setup {
    Setup {
        sessions,
        mode: 3,
        connection: 0,
        group: 0,
        room: 16,
        later,
    }
}

// 0 or 1.
fn bit(text: &[u8]) -> Option<bool> {
    match number::<u8>(text)? {
        0 => Some(false),
        1 => Some(true),
        _ => None,
    }
}

// An answer buffer has at most 20 bytes.
fn room(text: &[u8]) -> Option<usize> {
    let n = number(text)?;
    if n <= 20 { Some(n) } else { None }
}

fn switch(text: &[u8]) -> Option<bool> {
    match text {
        b"on" => Some(true),
        b"off" => Some(false),
        _ => None,
    }
}

impl Setup {
    fn take_mode(&mut self, mode: u8) {
        self.mode = mode;
        if !self.later {
            self.sessions.first.opened = mode == 3;
        }
    }

    // What one word says; none where that is not understood.
    fn take_word(&mut self, image: &mut Image, word: &[u8]) -> Option<()> {
        if word.is_empty() {
            return Some(());
        }
        let (name, value) = parted(word, b'=');
        match name {
            b"mode" => self.take_mode(number(value)?),
            b"open" => self.sessions.first.opened = bit(value)?,
            b"level" => self.sessions.first.level = number(value)?,
            b"group" => self.group = number(value)?,
            b"buf" => self.room = room(value)?,
            b"conn" => self.connection = number(value)?,
            b"open1" => self.sessions.second.opened = bit(value)?,
            b"level1" => self.sessions.second.level = number(value)?,
            b"button" => image.flag(1, switch(value)?),
            b"verify" => image.flag(2, switch(value)?),
            _ => image.poke(number(name)?, value)?,
        }
        Some(())
    }

    // What the words say; none where one is not understood, and then the others have changed the sheet all the same.
    pub(crate) fn take(&mut self, image: &mut Image, words: &[u8]) -> Option<()> {
        let mut all = Some(());
        for word in Pieces::words(words) {
            all = self.take_word(image, word).and(all);
        }
        all
    }
}
