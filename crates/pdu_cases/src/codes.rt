// The whole code table: what the two bytes of each code read as, in runs of codes that read alike.
use crate::cases::reads_and_writes;
use crate::words::{answer, name};
use lines::{text, word, write};
use pdu::Service;

// What a code names, and the outcome of reading its two bytes; none where it is wrong.
#[derive(Clone, Copy)]
struct Reading {
    service: Option<Service>,
    outcome: Option<u8>,
}

impl Reading {
    fn is_like(self, other: Reading) -> bool {
        self.outcome == other.outcome && self.service.map(name) == other.service.map(name)
    }
}

// The outcome of reading the two bytes of a code. There is none where the PDU is not of the kind that the code names, and where
// with the top six bits set the code is another, or they read otherwise, or are not written without these bits.
fn outcome_at(code: u16, service: Option<Service>) -> Option<u8> {
    let [high, low] = code.to_be_bytes();
    let bytes = [high % 4, low];
    let top = [252 + high % 4, low];
    let answer = answer(&bytes);
    if reads_and_writes(&top, answer.as_slice()).is_err() || pdu::code(&top) != code {
        return None;
    }
    let outcome = pdu::outcome(pdu::read(&bytes));
    if outcome == 0 && word(answer.as_slice(), 1) != service.map_or("", name).as_bytes() {
        return None;
    }
    Some(outcome)
}

fn reading_at(code: u16) -> Reading {
    let service = pdu::service_of(code);
    Reading {
        service,
        outcome: outcome_at(code, service),
    }
}

// `FIRST..LAST: OUTCOME KIND`; the outcome 99 says that it is wrong.
fn say_run(rt: &impl Print, first: u16, last: u16, reading: Reading) {
    let _ = print!(rt; "{first:03x}");
    if first != last {
        let _ = print!(rt; "..{last:03x}");
    }
    let outcome = reading.outcome.unwrap_or(99);
    let _ = print!(rt; ": {outcome}");
    if let Some(service) = reading.service {
        let _ = print!(rt; " {}", name(service));
    }
    write(rt, b"\n");
}

// Says the runs, and how many codes are wrong.
pub(crate) fn table(rt: &impl Print) -> u64 {
    let mut first = 0;
    let mut reading = reading_at(0);
    let mut wrong = u64::from(reading.outcome.is_none());
    for last in 0..1023 {
        let next = reading_at(last + 1);
        wrong = wrong.wrapping_add(u64::from(next.outcome.is_none()));
        if !next.is_like(reading) {
            say_run(rt, first, last, reading);
            first = last + 1;
            reading = next;
        }
    }
    say_run(rt, first, 1023, reading);
    wrong
}
