// The C interface of the plain engine: the call of include/kelindap_plain.h.
#![tactic(auto)]

ghost use Rattle.device.specs.Events.{Called};
ghost use Rattle.plain_host.specs.Calls.{gave};

use device::Sessions;

// What a request gave: its outcome, how many bytes of the answer buffer were filled, and the sessions afterwards, as C has
// them.
#[repr(C)]
#[derive(Clone, Copy)]
pub struct Reply {
    pub outcome: u8,
    pub count: u8,
    pub sessions: Sessions,
}

pub fn kelindap_plain_request(
    sessions: Sessions,
    sheet: &mut [u8],
    mode: u8,
    connection: u8,
    group: u16,
    apdu: &[u8],
    answer: &mut [u8],
) -> Reply
    ensures { Called sessions mode connection group apdu.now sheet.old answer.old (gave result) sheet.new answer.new }
{
    let done = plain::request(sessions, mode, connection, group, apdu, sheet, answer);
    Reply {
        outcome: done.outcome,
        count: done.count as u8,
        sessions: done.sessions,
    }
}
