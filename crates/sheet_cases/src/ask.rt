// What the crate `sheet` says of a sheet, as text:
//   nothing asked        OK, OLD, or the rule that it breaks
//   region K             the bytes of the body that is found, as hex digits; - for none
//   property OBJECT ID
//   group ADDRESS
//   memory ADDRESS N     the bytes that a range of device memory is, and its levels behind a /; - for none, or a sheet not accepted
//   user ADDRESS N       the same of user memory
use lines::{Hex, number, part, rest, word};
use sheet::{Fault, Memory, Sheet};
use std::fmt;

#[derive(Clone, Copy)]
pub(crate) enum Answer<'a> {
    Verdict(Result<(), Fault>),
    Bytes(&'a [u8]),
    Run { bytes: &'a [u8], levels: u8 },
}

impl fmt::Display for Answer<'_> {
    fn fmt<W: fmt::Write>(&self, f: &mut fmt::Formatter<W>) -> fmt::Result {
        match *self {
            Answer::Verdict(Ok(())) => write!(f, "OK"),
            Answer::Verdict(Err(Fault::Old)) => write!(f, "OLD"),
            Answer::Verdict(Err(fault)) => {
                let rule = fault.number();
                write!(f, "S{rule}")
            }
            Answer::Bytes(bytes) => {
                let bytes = Hex(bytes);
                write!(f, "{bytes}")
            }
            Answer::Run { bytes, levels } => {
                let bytes = Hex(bytes);
                write!(f, "{bytes}/{levels:02x}")
            }
        }
    }
}

// The bytes of a range of memory, and its levels.
fn run(sheet: &[u8], memory: Memory, address: u16, n: u8) -> Answer<'_> {
    let Ok(accepted) = Sheet::new(sheet) else {
        return Answer::Bytes(&[]);
    };
    let n = usize::from(n);
    match accepted.range(memory, usize::from(address), n) {
        Some(run) => Answer::Run {
            bytes: part(rest(sheet, run.offset), 0, n),
            levels: run.levels,
        },
        None => Answer::Bytes(&[]),
    }
}

// The answer to a question ` WHAT NUMBER .. `, or to nothing. There is none to another.
pub(crate) fn ask<'a>(sheet: &'a [u8], question: &[u8]) -> Option<Answer<'a>> {
    let (first, second) = (word(question, 2), word(question, 3));
    match word(question, 1) {
        b"" => Some(Answer::Verdict(sheet::check(sheet))),
        b"region" => {
            let k: u32 = number(first)?;
            Some(Answer::Bytes(sheet::region(sheet, k as usize)))
        }
        b"property" => {
            let body = sheet::property(sheet, number(first)?, number(second)?);
            Some(Answer::Bytes(body))
        }
        b"group" => Some(Answer::Bytes(sheet::group(sheet, number(first)?))),
        b"memory" => Some(run(sheet, Memory::Device, number(first)?, number(second)?)),
        b"user" => Some(run(sheet, Memory::User, number(first)?, number(second)?)),
        _ => None,
    }
}
