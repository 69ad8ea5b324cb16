// What a case gave or should give, as text: the outcome, the whole answer buffer, both sessions, and the bytes in which the
// sheet differs from the one that cases start from.
use device::Sessions;
use lines::Hex;
use std::fmt;

#[derive(Clone, Copy)]
pub(crate) struct Shown<'a> {
    pub(crate) outcome: u8,
    pub(crate) answer: &'a [u8],
    pub(crate) sessions: Sessions,
    pub(crate) base: &'a [u8],
    pub(crate) sheet: &'a [u8],
}

impl fmt::Display for Shown<'_> {
    fn fmt<W: fmt::Write>(&self, f: &mut fmt::Formatter<W>) -> fmt::Result {
        let outcome = self.outcome;
        let answer = Hex(self.answer);
        write!(f, "{outcome} {answer}")?;
        let Sessions { first, second } = self.sessions;
        let (open, level) = (u8::from(first.opened), first.level);
        write!(f, " open={open} level={level}")?;
        let (open, level) = (u8::from(second.opened), second.level);
        write!(f, " open1={open} level1={level}")?;
        let (sheet, base) = (self.sheet, self.base);
        for i in 0..sheet.len().min(base.len()) {
            if sheet[i] != base[i] {
                let byte = Hex(&sheet[i..i + 1]);
                write!(f, " {i}={byte}")?;
            }
        }
        Ok(())
    }
}
