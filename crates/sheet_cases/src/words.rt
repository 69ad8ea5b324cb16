// The words that draw up a sheet:
//   new                  no bytes
//   +HEX                 these bytes more
//   make=R,P,G           a whole sheet of R regions, P properties and G groups
//   FIELD=NUMBER         a field changed, and nothing else: `stated=68`, `region0.length=4`, or a byte by its place, `@40=64`
//   lay                  the bodies laid anew, as long as the entries now say, with offsets and stated length
//   length=N             N bytes: cut off, or with zeros added; nothing else changes
use crate::draft::Draft;
use crate::names::Field;
use lines::{Pieces, digits, number, parted, piece};

impl Draft {
    fn size(&mut self, len: usize) -> Option<()> {
        if self.bytes.len() < len {
            return None;
        }
        if let Some(more) = self.bytes.get_mut(self.len..len) {
            more.fill(0);
        }
        self.len = len;
        Some(())
    }

    // These bytes more; what is no hex digit gives FFh. The entries that names go by are those that the head now states.
    fn join(&mut self, hex: &[u8]) {
        let hex = if matches!(hex, b"-") { &[] } else { hex };
        for (b, pair) in self.bytes.iter_mut().skip(self.len).zip(hex.chunks(2)) {
            *b = digits(pair, 16).unwrap_or(0xff);
        }
        let end = self.len.saturating_add(hex.len().div_ceil(2));
        self.len = end.min(self.bytes.len());
        self.regions = self.bytes[1];
        self.properties = self.bytes[2];
        self.groups = self.bytes[3];
    }

    fn change(&mut self, field: Field, value: &[u8]) -> Option<()> {
        let sheet = self.bytes.get_mut(..self.len)?;
        match field {
            Field::Byte(at) => *sheet.get_mut(at)? = number(value)?,
            Field::Word(at) => {
                let x: u16 = number(value)?;
                let place = sheet.get_mut(at..)?.get_mut(..2)?;
                place.copy_from_slice(&x.to_be_bytes());
            }
        }
        Some(())
    }

    // One word; none where it is not understood, or can't be done.
    fn take_word(&mut self, word: &[u8]) -> Option<()> {
        if let Some(hex) = word.strip_prefix(b"+") {
            self.join(hex);
            return Some(());
        }
        let (name, value) = parted(word, b'=');
        match (word, name) {
            (b"", _) => Some(()),
            (b"new", _) => {
                self.clear();
                Some(())
            }
            (b"lay", _) => self.lay(),
            (_, b"make") => self.make(
                number(piece(value, 0, b','))?,
                number(piece(value, 1, b','))?,
                number(piece(value, 2, b','))?,
            ),
            (_, b"length") => self.size(number(value)?),
            _ => self.change(self.field(name)?, value),
        }
    }

    // The words one after the other, up to one that is not understood.
    pub(crate) fn take(&mut self, words: &[u8]) -> Option<()> {
        for word in Pieces::words(words) {
            self.take_word(word)?;
        }
        Some(())
    }
}
