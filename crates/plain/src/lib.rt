// The plain engine: a sheet is taken apart into records, the rules are applied to the records, and the sheet is written again.
#![tactic(auto)]

mod both;
mod carry;
mod order;
mod serve;
mod sessions;

ghost use Rattle.std.specs.Prelude.{◌≡◌};
ghost use Rattle.device.specs.Events.{Called};

use device::{Done, Sessions};

// What both engines gave.
#[derive(Clone, Copy)]
pub struct Twice {
    pub first: Done,
    pub plain: Done,
}

// 3 to 10 and 14: sessions, sheet and answer buffer stay as they were.
fn refused(sessions: Sessions, outcome: u8) -> Done
    ensures { result ≡ record { outcome = outcome; count = 0; sessions = sessions } }
{
    Done {
        outcome,
        count: 0,
        sessions,
    }
}

// A request: tested in the order of the outcomes, read, served on the parts of the sheet, carried out.
pub fn request(
    sessions: Sessions,
    mode: u8,
    connection: u8,
    group: u16,
    apdu: &[u8],
    sheet: &mut [u8],
    answer: &mut [u8],
) -> Done
    ensures { Called sessions mode connection group apdu.now sheet.old answer.old result sheet.new answer.new }
{
    let session = sessions::session_met(sessions, mode, connection);
    if let Err(refusal) = order::refused_first(answer.len(), &sheet[..], apdu, mode, session) {
        return refused(sessions, refusal.number());
    }
    let u = parts::take_apart(&sheet[..]);
    let found = pdu::service_of(pdu::code(apdu));
    if let Err(refusal) = order::refused_next(found, u.head.rules, mode) {
        return refused(sessions, refusal.number());
    }
    let parsed = pdu::read_found(found, apdu);
    let Ok(p) = parsed else {
        return refused(sessions, pdu::outcome(parsed));
    };
    let d = pdu::data_of(p, apdu);
    let level = order::acting_level(session, mode);
    let reply = serve::serve(u, level, group, d, p);
    let turn = reply.turn;
    let count = carry::carry_out(reply, sheet, answer);
    Done {
        outcome: reply.outcome.number(),
        count,
        sessions: sessions::sessions_after(sessions, mode, connection, turn),
    }
}
