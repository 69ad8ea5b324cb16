// The device: a request on one of two connections judged, carried out and answered.
#![tactic(auto)]

mod answer;
mod session;
mod store;

ghost use Rattle.std.specs.Prelude.{◌≡◌, true};
ghost use Rattle.sheet.specs.Rules.{Accepted};
ghost use Rattle.device.specs.Changed.{Requested};

use judge::{Request, Session};
pub use session::{button, button_known, connect, disconnect, fresh, session_of};
use sheet::Sheet;

// The sessions of connections 0 and 1.
#[repr(C)]
#[derive(Clone, Copy)]
pub struct Sessions {
    pub first: Session,
    pub second: Session,
}

// What a call gave: the outcome, the count of bytes answered, the sessions afterwards. The outcome is a number: C has it, and the
// theorems over histories speak of it.
#[derive(Clone, Copy)]
pub struct Done {
    pub outcome: u8,
    pub count: usize,
    pub sessions: Sessions,
}

// A run of sheet bytes: where it begins, and how many it has. A sheet has at most 16,384, so both fit in 16 bits.
#[repr(C)]
#[derive(Clone, Copy)]
pub struct Run {
    pub offset: u16,
    pub length: u16,
}

// The runs of sheet bytes that a request stored, at most two; 0 and 0, and no Option, for one that there is not: C's layout.
#[repr(C)]
#[derive(Clone, Copy)]
pub struct Changed {
    pub first: Run,
    pub second: Run,
}

impl Run {
    pub const NOTHING: Run = Run {
        offset: 0,
        length: 0,
    };
}

impl Changed {
    pub const NOTHING: Changed = Changed {
        first: Run::NOTHING,
        second: Run::NOTHING,
    };
}

// What a request gave, and what it stored.
#[derive(Clone, Copy)]
pub struct Made {
    pub done: Done,
    pub changed: Changed,
}

// A request: read, judged on the session that it meets, carried out, answered. Whatever is refused leaves sheet, sessions and
// answer buffer as they were.
pub fn request(
    sessions: Sessions,
    mode: u8,
    connection: u8,
    group: u16,
    apdu: &[u8],
    sheet: &mut [u8],
    answer: &mut [u8],
) -> Made
    ensures { Requested sessions mode connection group apdu.now sheet.old answer.old result sheet.new answer.new }
{
    request_known(
        false, sessions, mode, connection, group, apdu, sheet, answer,
    )
}

// The same; a sheet that is known to be accepted is not judged again. A flag, and no type: a trace's player learns it as it runs.
pub fn request_known(
    known: bool,
    sessions: Sessions,
    mode: u8,
    connection: u8,
    group: u16,
    apdu: &[u8],
    sheet: &mut [u8],
    answer: &mut [u8],
) -> Made
    requires { known ≡ true → Accepted sheet.old }
    ensures { Requested sessions mode connection group apdu.now sheet.old answer.old result sheet.new answer.new }
{
    let session = session::session_for(sessions, mode, connection);
    let unread = judge::refused_unread(answer.len(), known, &sheet[..], session, mode, apdu);
    if let Err(refusal) = unread {
        return Made {
            done: Done {
                outcome: refusal.number(),
                count: 0,
                sessions,
            },
            changed: Changed::NOTHING,
        };
    }
    let found = pdu::service_of(pdu::code(apdu));
    let parsed = pdu::read_found(found, apdu);
    let d = judge::data_in(parsed, apdu);
    let x = Request {
        session,
        mode,
        group,
        found,
        parsed,
    };
    let k = judge::found(Sheet::known(&sheet[..]), x, d);
    let changed = store::changes(&sheet[..], k, d);
    store::carry_out(sheet, k, d);
    let count = answer::answer(answer, k.answer, &sheet[..], d);
    Made {
        done: Done {
            outcome: k.outcome,
            count,
            sessions: session::turned(sessions, mode, connection, k.turn),
        },
        changed,
    }
}
