// The modes, the level that a request acts at, and what a level may do.
ghost use Rattle.std.specs.Prelude.{◌≡◌};
ghost use Rattle.judge.specs.Session.{level_of, level_in};
ghost use Rattle.judge.specs.Memory.{may_read, may_write, may as mayOf};

use crate::{Access, Session};

// The modes by their numbers. What a request is given as its mode is any byte: C hands it in, and one above 3 is refused by 6.
#[derive(Clone, Copy)]
pub enum Mode {
    Multicast = 0,
    Broadcast = 1,
    Connectionless = 2,
    Connected = 3,
}

// The level with the fewest rights.
pub const WEAKEST: u8 = 3;

// A level above 3 is read as 3.
#[tactic(auto, unfolding(crate::specs::Session::level_of))]
pub fn level_of(q: Session) -> u8
    ensures { result ≡ level_of q }
{
    q.level.min(WEAKEST)
}

// A connected request acts at the session's level, any other at 3.
#[tactic(auto, unfolding(crate::specs::Session::level_in))]
pub fn level_in(q: Session, mode: u8) -> u8
    ensures { result ≡ level_in q mode }
{
    if mode != Mode::Connected as u8 {
        return WEAKEST;
    }
    level_of(q)
}

// The rights that the levels of a region or a property give: reading by the high four bits, writing by the low.
pub fn may_read(level: u8, levels: u8) -> bool
    ensures { result ≡ may_read level levels }
{
    level <= levels / 16
}

pub fn may_write(level: u8, levels: u8) -> bool
    ensures { result ≡ may_write level levels }
{
    level <= levels % 16
}

// An access is within the rights: a bit write needs both.
pub fn may(w: Access, level: u8, levels: u8) -> bool
    ensures { result ≡ mayOf w level levels }
{
    match w {
        Access::Read => may_read(level, levels),
        Access::Write => may_write(level, levels),
        Access::Change => may_read(level, levels) && may_write(level, levels),
    }
}
