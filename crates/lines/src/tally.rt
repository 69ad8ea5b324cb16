// How many cases there were, and how many were different.
ghost use Rattle.std.specs.Prelude.{◌≡◌, ◌+◌, ◌%◌, ◌^◌, if◌then◌else◌};

use crate::out::say;

#[derive(Clone, Copy, Default)]
pub struct Tally {
    pub cases: u64,
    pub different: u64,
}

// A line that is no case: it is empty, or starts with #.
pub fn is_remark(line: &[u8]) -> bool {
    matches!(line, [] | [b'#', ..])
}

impl Tally {
    // One case more.
    pub fn count(&mut self, different: bool)
        ensures cases { self.new.cases ≡ (self.old.cases + 1) % 2 ^ 64 }
        ensures different { self.new.different ≡ (self.old.different + (if different then 1 else 0)) % 2 ^ 64 }
    {
        self.cases = self.cases.wrapping_add(1);
        self.different = self.different.wrapping_add(u64::from(different));
    }

    // One case more, and its line, by whether it gave what the line says.
    pub fn mark(&mut self, rt: &impl Print, line: &[u8], different: bool)
        ensures cases { self.new.cases ≡ (self.old.cases + 1) % 2 ^ 64 }
        ensures different { self.new.different ≡ (self.old.different + (if different then 1 else 0)) % 2 ^ 64 }
    {
        self.count(different);
        if different {
            say(rt, b"DIFFERENT  ", line);
        } else {
            say(rt, b"ok         ", line);
        }
    }

    // The same, and what it gave where that is something else than what it should give.
    pub fn tell(&mut self, rt: &impl Print, line: &[u8], want: &[u8], got: &[u8])
        ensures cases { self.new.cases ≡ (self.old.cases + 1) % 2 ^ 64 }
    {
        let different = want != got;
        self.mark(rt, line, different);
        if different {
            say(rt, b"   but got ", got);
        }
    }

    // One case more, of a line that does not say what to do.
    pub fn unclear(&mut self, rt: &impl Print, line: &[u8])
        ensures cases { self.new.cases ≡ (self.old.cases + 1) % 2 ^ 64 }
        ensures different { self.new.different ≡ (self.old.different + 1) % 2 ^ 64 }
    {
        self.mark(rt, line, true);
        say(rt, b"   but got ", b"line not understood");
    }

    // The counts, after an input that filled the buffer or did not.
    pub fn end(self, rt: &impl Print, full: bool) {
        let Tally { cases, different } = self;
        let _ = println!(rt; "{cases} cases, {different} different");
        if full {
            say(rt, b"", b"there may be more cases than that");
        }
    }
}
