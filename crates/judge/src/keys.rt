// Authorize, key write and restart.
ghost use Rattle.std.specs.Prelude.{◌≡◌};
ghost use Rattle.judge.specs.Keys.{grant_of, authorize_of, key_write_of, restart_of};

use crate::decisions::{denied, levelled, stored, written};
use crate::levels::WEAKEST;
use crate::{Answer, Decision, Store, Turn};
use pdu::Pdu;
use sheet::Sheet;

// The smallest level with that key, else 3. A loop over three keys would be no plainer: it needs an invariant.
#[tactic(auto, unfolding(crate::specs::Keys::grant_of))]
fn grant(s: &[u8], offered: u32) -> u8
    ensures { result ≡ grant_of s.now offered }
{
    if offered == sheet::key(s, 0) {
        0
    } else if offered == sheet::key(s, 1) {
        1
    } else if offered == sheet::key(s, 2) {
        2
    } else {
        WEAKEST
    }
}

// The level that a key gives becomes the session's: a wrong key gives up rights.
#[tactic(auto, unfolding(crate::specs::Keys::authorize_of))]
pub fn authorize(s: &[u8], offered: u32) -> Decision
    ensures { result ≡ authorize_of s.now offered }
{
    let level = grant(s, offered);
    levelled(level, Answer::Plain(Pdu::AuthorizeResponse { level }))
}

// The level named is 0 to 2, and the session's level is at most that.
#[tactic(auto, unfolding(crate::specs::Keys::key_write_of))]
pub fn key_write(level: u8, named: u8, new: u32) -> Decision
    ensures { result ≡ key_write_of level named new }
{
    if named >= WEAKEST || named < level {
        return denied(Pdu::KeyResponse { level: 255 });
    }
    let run = Store::Number {
        at: sheet::key_at(named as usize),
        width: 4,
        x: new as u64,
    };
    written(
        run,
        Store::Nothing,
        Answer::Plain(Pdu::KeyResponse { level: named }),
    )
}

// Programming mode is cleared, verify stays.
#[tactic(auto, unfolding(crate::specs::Keys::restart_of))]
pub fn restart(s: Sheet<'_>) -> Decision
    ensures { result ≡ restart_of s.entry.bytes.now }
{
    let old = s.flags();
    Decision {
        turn: Turn::Closes,
        ..stored(Store::Number {
            at: sheet::flags_at(),
            width: 1,
            x: (old - old % 2) as u64,
        })
    }
}
