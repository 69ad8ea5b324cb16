// A frame in, at most one frame out.
ghost use Rattle.std.specs.Prelude.{◌≡◌, cond, [], ◌≤◌, eqb, length};
ghost use Rattle.link.specs.Hearing.{own_of, judged};
ghost use Rattle.link.specs.Serving.{longest, leaving, joining, parting, deed_of, result_of, DidServe, ServedFrame};
ghost use Rattle.link.specs.declared.Arrived.TheVariants.{Request};

use crate::{Arrived, Link, Refusal, Served, answering, hearing, places};
use cemi::{Fields, Frame};
use device::Changed;

// Nothing but the number of why, and whose frame it was.
fn silent(link: Link, number: u8, connection: u8) -> Served
    ensures { result ≡ result_of (leaving link [] number connection) }
{
    Served {
        number,
        outcome: 0,
        connection,
        count: 0,
        changed: Changed::NOTHING,
        link,
    }
}

// The address of a place after a connect of connection c.
fn chosen(c: u8, place: u8, new: u16, old: u16) -> u16
    ensures { result ≡ cond (eqb c place) new old }
{
    if c == place { new } else { old }
}

// A connect by the source: its address is the connection's from now on.
fn connected(link: Link, c: u8, source: u16) -> Served
    ensures { result ≡ result_of (joining link [] c source) }
{
    let d = device::connect(link.sessions, c);
    Served {
        number: 0,
        outcome: d.outcome,
        connection: c,
        count: 0,
        changed: Changed::NOTHING,
        link: Link {
            sessions: d.sessions,
            first: chosen(c, 0, source, link.first),
            second: chosen(c, 1, source, link.second),
        },
    }
}

fn disconnected(link: Link, c: u8) -> Served
    ensures { result ≡ result_of (parting link [] c) }
{
    let d = device::disconnect(link.sessions, c);
    Served {
        number: 0,
        outcome: d.outcome,
        connection: c,
        count: 0,
        changed: Changed::NOTHING,
        link: Link {
            sessions: d.sessions,
            ..link
        },
    }
}

// A request that came with the fields f, carried out and answered. Mode, connection and group stand side by side, as in `Request`, which
// the theorems apply to three numbers.
fn requested(
    link: Link,
    f: Fields,
    sequence: u8,
    mode: u8,
    c: u8,
    group: u16,
    apdu: &[u8],
    sheet: &mut [u8],
    out: &mut [u8],
) -> Served
    requires { longest ≤ length out.old }
    ensures { DidServe (deed_of link f sequence apdu.now sheet.old (Request mode c group)) result out.old sheet.new out.new }
{
    let own = hearing::own_of(&sheet[..]);
    let mut answer = [0u8; 16];
    let made = device::request(link.sessions, mode, c, group, apdu, sheet, &mut answer);
    let d = made.done;
    let count = answering::send(f, own, mode, sequence, &answer[..d.count], out);
    Served {
        number: 0,
        outcome: d.outcome,
        connection: c,
        count,
        changed: made.changed,
        link: Link {
            sessions: d.sessions,
            ..link
        },
    }
}

// A frame that reads, its bytes from octet 6 on being apdu.
#[tactic(auto, using(octets::proofs::Splices::splice_none), unfolding(crate::specs::Serving::deed_of))]
fn serve_frame(
    link: Link,
    f: Frame,
    sequence: u8,
    apdu: &[u8],
    sheet: &mut [u8],
    out: &mut [u8],
) -> Served
    requires { longest ≤ length out.old }
    ensures { DidServe (deed_of link f.fields sequence apdu.now sheet.old (judged link (own_of sheet.old) f))
        result out.old sheet.new out.new }
{
    let own = hearing::own_of(&sheet[..]);
    let fields = f.fields;
    match hearing::judge(link, own, f) {
        Arrived::Request {
            mode,
            connection,
            group,
        } => requested(
            link, fields, sequence, mode, connection, group, apdu, sheet, out,
        ),
        Arrived::Connect(c) => connected(link, c, fields.source),
        Arrived::Disconnect(c) => disconnected(link, c),
        Arrived::Nothing { number, connection } => silent(link, number, connection),
    }
}

// A FRAME IN, AT MOST ONE FRAME OUT. 64, before all else, if out has not the 25 bytes that the longest answer takes.
pub fn serve(link: Link, sequence: u8, frame: &[u8], sheet: &mut [u8], out: &mut [u8]) -> Served
    ensures { ServedFrame link sequence frame.now sheet.old out.old result sheet.new out.new }
{
    if out.len() < 25 {
        return silent(link, Refusal::Room.number(), places::NOBODY);
    }
    match cemi::read(frame) {
        Ok(f) => serve_frame(link, f, sequence, cemi::tpdu(f, frame), sheet, out),
        Err(e) => silent(link, e.number(), places::NOBODY),
    }
}
