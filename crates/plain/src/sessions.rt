// The sessions of connections 0 and 1.
ghost use Rattle.std.specs.Prelude.{◌≡◌, false};
ghost use Rattle.judge.specs.declared.Turn.TheVariants.{Level};
ghost use Rattle.device.specs.Carry.{turn_of, closes};
ghost use Rattle.device.specs.Sessions.{closed as closedOf, session_for, turned_of};

use device::Sessions;
use judge::{Session, Turn};

fn closed() -> Session
    ensures { result ≡ closedOf }
{
    Session {
        opened: false,
        level: 3,
    }
}

// The session that a request meets: in mode 3 that of its connection. There is none but 0 and 1.
pub fn session_met(sessions: Sessions, mode: u8, connection: u8) -> Session
    ensures { result ≡ session_for sessions mode connection }
{
    match (mode, connection) {
        (3, 0) => sessions.first,
        (3, 1) => sessions.second,
        _ => closed(),
    }
}

// Another level for the connection of a request, if it has one.
fn with_level(mut sessions: Sessions, mode: u8, connection: u8, level: u8) -> Sessions
    ensures { result ≡ turned_of sessions mode connection false (turn_of (session_for sessions mode connection) (Level level)) }
{
    match (mode, connection) {
        (3, 0) => sessions.first.level = level,
        (3, 1) => sessions.second.level = level,
        _ => {}
    }
    sessions
}

// The sessions afterwards: as they were, with another level, or both closed.
pub fn sessions_after(sessions: Sessions, mode: u8, connection: u8, turn: Turn) -> Sessions
    ensures { result ≡ turned_of sessions mode connection (closes turn) (turn_of (session_for sessions mode connection) turn) }
{
    match turn {
        Turn::Stays => sessions,
        Turn::Level(level) => with_level(sessions, mode, connection, level),
        Turn::Closes => Sessions {
            first: closed(),
            second: closed(),
        },
    }
}
