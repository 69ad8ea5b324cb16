// The C interface of the link: the calls of include/kelindap_link.h.
ghost use Rattle.std.specs.Prelude.{◌≡◌};
ghost use Rattle.cemi.specs.Read.{read_frame};
ghost use Rattle.link.specs.Hearing.{own_of, heard_of};
ghost use Rattle.link.specs.Serving.{ServedFrame};
ghost use Rattle.host.specs.Bus.{refuses, sender_of, arrival_by, arrival_of, gave_served};

use crate::{Answered, Arrival, widened};
use cemi::Frame;
use link::{Arrived, Link};

// Who sent a frame, its sequence number, and whether it is a negative acknowledgement.
#[derive(Clone, Copy, Default)]
pub struct Sender {
    pub source: u16,
    pub sequence: u8,
    pub negative: bool,
}

// Whether a control of this transport, with these low bits, is a negative acknowledgement.
#[tactic(auto, unfolding(crate::specs::Bus::refuses))]
fn is_negative(transport: u8, low: u8) -> bool
    ensures { result ≡ refuses transport low }
{
    48 <= transport && low == 3
}

// The sender of a frame that reads.
#[tactic(auto, unfolding(crate::specs::Bus::sender_of))]
fn of_frame(f: Frame) -> Sender
    ensures { result ≡ sender_of (Ok f) }
{
    Sender {
        source: f.fields.source,
        sequence: f.fields.transport % 16,
        negative: is_negative(f.fields.transport, f.low),
    }
}

// The sender of a frame; nobody's if it does not read.
#[tactic(auto, unfolding(crate::specs::Bus::sender_of))]
fn sent_by(frame: &[u8]) -> Sender
    ensures { result ≡ sender_of (read_frame frame.now) }
{
    match cemi::read(frame) {
        Ok(f) => of_frame(f),
        Err(_) => Sender::default(),
    }
}

// What arrived and who sent it, laid flat.
#[tactic(auto, unfolding(crate::specs::Bus::arrival_of))]
fn laid(a: Arrived, s: Sender) -> Arrival
    ensures { result ≡ arrival_of a s }
{
    match a {
        Arrived::Request {
            mode,
            connection,
            group,
        } => flat(mode, connection, group, s),
        Arrived::Connect(c) => flat(4, c, 0, s),
        Arrived::Disconnect(c) => flat(5, c, 0, s),
        Arrived::Nothing { number, connection } => flat(number, connection, 0, s),
    }
}

fn flat(event: u8, connection: u8, group: u16, s: Sender) -> Arrival
    ensures { result ≡ arrival_by event connection group s }
{
    Arrival {
        event,
        connection,
        group,
        source: s.source,
        sequence: s.sequence,
        negative: s.negative,
    }
}

// The event of a frame for the device with this sheet, or the number of why there is none; and who sent it.
pub fn kelindap_heard(link: Link, sheet: &[u8], frame: &[u8]) -> Arrival
    ensures { result ≡ arrival_of (heard_of link (own_of sheet.now) frame.now) (sender_of (read_frame frame.now)) }
{
    let own = link::own_of(sheet);
    laid(link::heard(link, own, frame), sent_by(frame))
}

// A frame in, at most one frame out, in place: the link becomes what the frame makes of it.
pub fn kelindap_serve(
    link: &mut Link,
    sheet: &mut [u8],
    frame: &[u8],
    out: &mut [u8],
    sequence: u8,
) -> Answered
    ensures { ServedFrame link.old sequence frame.now sheet.old out.old (gave_served result link.new) sheet.new out.new }
{
    let served = link::serve(*link, sequence, frame, sheet, out);
    *link = served.link;
    Answered {
        number: served.number,
        outcome: served.outcome,
        connection: served.connection,
        count: served.count,
        changed: widened(served.changed),
    }
}
