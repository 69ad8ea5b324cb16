// A reply carried out: the sheet written again, the answer sent.
ghost use Rattle.std.specs.Prelude.{◌≡◌, ◌≤◌, length, take};
ghost use Rattle.device.specs.Carry.{Filled};
ghost use Rattle.plain.specs.Carrying.{Sendable, sent_bytes, Ready, Carried};

use pdu::Pdu;
use plain_services::{Outcome, Reply};

// The PDU with so many bytes of data, at the front of the buffer: how many bytes there are.
fn send(answer: &mut [u8], sent: Option<Pdu>, bytes: [u8; 14], n: usize) -> usize
    requires { Sendable (length answer.old) sent (take n bytes) × (n ≤ 14) × (length bytes ≡ 14) }
    ensures { Filled (sent_bytes sent (take n bytes)) result answer.old answer.new }
{
    match sent {
        None => 0,
        Some(pdu) => pdu::encode(pdu, &bytes[..n], answer),
    }
}

pub fn carry_out(reply: Reply, sheet: &mut [u8], answer: &mut [u8]) -> usize
    requires { Ready reply (length sheet.old) (length answer.old) }
    ensures { Carried reply sheet.old answer.old result sheet.new answer.new }
{
    let sent = reply.sent;
    let bytes = reply.bytes;
    // What is refused or ignored stores nothing.
    if !matches!(reply.outcome, Outcome::Refused(_)) {
        parts::write_again(reply.parts, sheet);
    }
    send(answer, sent, bytes, reply.length)
}
