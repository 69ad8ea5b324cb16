// What the program says: a line for each event, and the last three.
use device::Sessions;
use lines::{Hex, part};
use octets::{byte, number};
use playback::EventKind;
use std::fmt;

// What came, by the entry of an event and the APDU that it names.
#[derive(Clone, Copy)]
struct Came<'a> {
    entry: &'a [u8],
    apdu: &'a [u8],
}

impl fmt::Display for Came<'_> {
    fn fmt<W: fmt::Write>(&self, f: &mut fmt::Formatter<W>) -> fmt::Result {
        let both = byte(self.entry, 1);
        let (mode, connection) = (both % 16, both / 16);
        match EventKind::of(byte(self.entry, 0)) {
            Some(EventKind::Request) => {
                let group = number(self.entry, 2, 2);
                let apdu = Hex(self.apdu);
                write!(
                    f,
                    "request mode={mode} connection={connection} group={group:04x} apdu={apdu}"
                )
            }
            Some(EventKind::Connect) => write!(f, "connect connection={connection}"),
            Some(EventKind::Disconnect) => write!(f, "disconnect connection={connection}"),
            Some(EventKind::On) => write!(f, "button on"),
            // no trace that is played has another kind
            Some(EventKind::Off) | None => write!(f, "button off"),
        }
    }
}

// The APDU that an entry names.
fn apdu_of<'a>(trace: &'a [u8], e: &[u8]) -> &'a [u8] {
    let a = byte(e, 4) as usize * 256 + byte(e, 5) as usize;
    part(trace, a, a + byte(e, 6) as usize)
}

// Event i of the trace, counted from 0: its number, what came by its entry, and what its line of the log says.
pub(crate) fn say_event(rt: &impl Print, trace: &[u8], i: u16, log: &[u8]) {
    let at = 2 + 8 * i as usize;
    let entry = part(trace, at, at + 8);
    let apdu = apdu_of(trace, entry);
    let came = Came { entry, apdu };
    let number = i as u32 + 1;
    let outcome = byte(log, 0);
    let answer = Hex(part(log, 2, 2 + byte(log, 1) as usize));
    let _ = println!(rt; "{number} {came} outcome={outcome} answer={answer}");
}

pub(crate) fn say_end(rt: &impl Print, q: Sessions, same: bool) {
    for (i, session) in [(0, q.first), (1, q.second)] {
        let open = u8::from(session.opened);
        let level = session.level;
        let _ = println!(rt; "session {i} open={open} level={level}");
    }
    let _ = if same {
        println!(rt; "sheet unchanged")
    } else {
        println!(rt; "sheet changed")
    };
}
