// The sessions of the two connections: what connects, disconnects and decisions make of them; and the programming button.
ghost use Rattle.std.specs.Prelude.{◌≡◌, true, false, ◌+◌, ◌-◌, ◌≤◌};
ghost use Rattle.sheet.specs.Rules.{Accepted};
ghost use Rattle.sheet.specs.Refused.{told_converted};
ghost use Rattle.sheet.specs.Layout.{◌of◌};
ghost use Rattle.sheet.specs.Head as head;
ghost use Rattle.judge.specs.Session.{weakest};
ghost use Rattle.judge.specs.declared.Turn.TheVariants.{Level};
ghost use Rattle.device.specs.Carry.{turn_of, closes};
ghost use Rattle.device.specs.Sessions.{fresh_of, session_of, with_session, session_for, turned_of};
ghost use Rattle.device.specs.Events.{named_outcome, connect_of, disconnect_of, named, bit, Pressed};

use crate::{Done, Sessions};
use judge::{DONE, Mode, Refusal, Session, Turn};
use sheet::{Refused, Sheet};

// Sessions that nobody has connected to.
pub fn fresh() -> Sessions
    ensures { result ≡ fresh_of }
{
    let closed = Session::anew(false);
    Sessions {
        first: closed,
        second: closed,
    }
}

// The session of a connection; any other number has a closed one.
pub fn session_of(q: Sessions, connection: u8) -> Session
    ensures { result ≡ session_of q connection }
{
    match connection {
        0 => q.first,
        1 => q.second,
        _ => Session::anew(false),
    }
}

// The session that a request meets. Sessions, mode and connection stay three parameters, here and below, as C hands them in.
pub fn session_for(q: Sessions, mode: u8, connection: u8) -> Session
    ensures { result ≡ session_for q mode connection }
{
    if mode == Mode::Connected as u8 {
        session_of(q, connection)
    } else {
        Session::anew(false)
    }
}

// The sessions with another one for a connection.
fn with_session(q: Sessions, connection: u8, session: Session) -> Sessions
    ensures { result ≡ with_session q connection session }
{
    match connection {
        0 => Sessions {
            first: session,
            ..q
        },
        1 => Sessions {
            second: session,
            ..q
        },
        _ => q,
    }
}

// A connection opened or closed anew; 7 where there is no such.
fn reset(q: Sessions, connection: u8, opened: bool) -> Done
    ensures { result ≡ named connection (with_session q connection record { opened = opened; level = weakest }) }
{
    Done {
        outcome: if connection < 2 {
            DONE
        } else {
            Refusal::Unconnected.number()
        },
        count: 0,
        sessions: with_session(q, connection, Session::anew(opened)),
    }
}

// A connect: that connection's session is open at level 3, whatever it was.
pub fn connect(q: Sessions, connection: u8) -> Done
    ensures { result ≡ named connection (connect_of q connection) }
{
    reset(q, connection, true)
}

// A disconnect: that connection's session is closed at level 3, whatever it was.
pub fn disconnect(q: Sessions, connection: u8) -> Done
    ensures { result ≡ named connection (disconnect_of q connection) }
{
    reset(q, connection, false)
}

// The sessions with another level for the connection of a request, if it names one.
fn with_level(q: Sessions, mode: u8, connection: u8, level: u8) -> Sessions
    ensures { result ≡ turned_of q mode connection false (turn_of (session_for q mode connection) (Level level)) }
{
    if mode != Mode::Connected as u8 {
        return q;
    }
    let session = session_of(q, connection);
    with_session(q, connection, Session { level, ..session })
}

// The sessions after a decision: a restart closes both.
pub fn turned(q: Sessions, mode: u8, connection: u8, turn: Turn) -> Sessions
    ensures { result ≡ turned_of q mode connection (closes turn) (turn_of (session_for q mode connection) turn) }
{
    match turn {
        Turn::Stays => q,
        Turn::Level(l) => with_level(q, mode, connection, l),
        Turn::Closes => fresh(),
    }
}

// The flags with programming mode set or cleared, verify as it was.
fn flags_with(s: Sheet<'_>, on: bool) -> u8
    ensures { result ≡ head.flags of s.entry.bytes.now - head.programming s.entry.bytes.now + bit on }
{
    let f = s.flags();
    f - f % 2 + u8::from(on)
}

// The programming button: an old sheet, or a bad one, is left as found.
pub fn button(sheet: &mut [u8], on: bool) -> Result<(), Refused>
    ensures { Pressed sheet.old on (told_converted result) sheet.new }
{
    button_known(false, sheet, on)
}

// The same; a sheet that is known to be accepted is not judged again.
pub fn button_known(known: bool, sheet: &mut [u8], on: bool) -> Result<(), Refused>
    requires { known ≡ true → Accepted sheet.old }
    ensures { Pressed sheet.old on (told_converted result) sheet.new }
{
    sheet::refusal_unless(known, &sheet[..])?;
    let new = flags_with(Sheet::known(&sheet[..]), on);
    octets::put(sheet, sheet::flags_at(), 1, new as u64);
    Ok(())
}
