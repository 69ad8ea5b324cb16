// Bodies laid one after the other behind the contents, as long as the entries say.
ghost use Rattle.std.specs.Prelude.{◌≤◌, ◌<◌};

use crate::draft::{Draft, Kind};
use octets::{byte, number};

// Past every buffer.
const FAR: usize = 16777216;

// A place so much further on.
fn on(from: usize, n: usize) -> usize {
    if FAR < from || FAR < n { FAR } else { from + n }
}

impl Draft {
    // The body of entry i of a kind laid from a place on: its offset stored, and where it ends. The kinds differ in where their
    // fields stand and in what makes the length.
    fn lay_region(&mut self, i: u8, from: usize) -> usize {
        let at = self.place(Kind::Regions, i);
        self.store(at + 4, 2, from as u64);
        on(from, number(&self.bytes, at + 2, 2) as usize)
    }

    fn lay_property(&mut self, i: u8, from: usize) -> usize {
        let at = self.place(Kind::Properties, i);
        self.store(at + 8, 2, from as u64);
        let size = usize::from(byte(&self.bytes, at + 3));
        on(from, size * number(&self.bytes, at + 4, 2) as usize)
    }

    // A code of 0 means a byte, too.
    fn lay_group(&mut self, i: u8, from: usize) -> usize {
        let at = self.place(Kind::Groups, i);
        self.store(at + 4, 2, from as u64);
        on(from, usize::from(byte(&self.bytes, at + 2).max(1)))
    }

    // The bodies laid one after the other; where the last one ends.
    fn lay_all(&mut self) -> usize {
        let mut end = self.contents();
        for i in 0..self.regions {
            end = self.lay_region(i, end);
        }
        for i in 0..self.properties {
            end = self.lay_property(i, end);
        }
        for i in 0..self.groups {
            end = self.lay_group(i, end);
        }
        end
    }

    // The bytes from a place up to another each show where they stand: they are the place mod 61.
    fn mark(&mut self, from: usize, to: usize) {
        for i in from..to.min(self.bytes.len()) {
            self.bytes[i] = (i % 61) as u8;
        }
    }

    // The bodies laid and marked, and the length stated; none where the sheet is too long for the buffer.
    pub(crate) fn lay(&mut self) -> Option<()> {
        let end = self.lay_all();
        if self.bytes.len() < end {
            return None;
        }
        self.mark(self.contents(), end);
        self.store(4, 2, end as u64);
        self.len = end;
        Some(())
    }
}
