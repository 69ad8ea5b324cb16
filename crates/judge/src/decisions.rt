// The kinds of decision.
ghost use Rattle.std.specs.Prelude.{◌≡◌};
ghost use Rattle.judge.specs.Refusal.{number_of};
ghost use Rattle.judge.specs.Decisions as made;

use crate::{Answer, Decision, Refusal, Store, Turn};
use pdu::Pdu;

// The outcomes of what is carried out: an answer is due, or none is.
const ANSWERED: u8 = 0;

pub const DONE: u8 = 1;

// Nothing happens.
const NOTHING: Decision = Decision {
    outcome: ANSWERED,
    first: Store::Nothing,
    second: Store::Nothing,
    turn: Turn::Stays,
    answer: Answer::Silence,
};

// 2 to 10, and 12: nothing happens.
pub fn refused_by(n: u8) -> Decision
    ensures { result ≡ made.refused n }
{
    Decision {
        outcome: n,
        ..NOTHING
    }
}

pub fn refused(r: Refusal) -> Decision
    ensures { result ≡ made.refused (number_of r) }
{
    refused_by(r.number())
}

// 11: nothing happens but the negative answer.
pub fn denied(p: Pdu) -> Decision
    ensures { result ≡ made.denied p }
{
    Decision {
        outcome: Refusal::Denied.number(),
        answer: Answer::Plain(p),
        ..NOTHING
    }
}

// 0: something is answered, and nothing else happens.
pub fn answered(a: Answer) -> Decision
    ensures { result ≡ made.answered a }
{
    Decision {
        answer: a,
        ..NOTHING
    }
}

// 0: one run or two are stored, and something is answered.
pub fn written(first: Store, second: Store, a: Answer) -> Decision
    ensures { result ≡ made.written first second a }
{
    Decision {
        first,
        second,
        answer: a,
        ..NOTHING
    }
}

// 0: the session's level turns to another, and something is answered.
pub fn levelled(level: u8, a: Answer) -> Decision
    ensures { result ≡ made.decision 0 Store.Nothing Store.Nothing (Turn.Level level) a }
{
    Decision {
        turn: Turn::Level(level),
        answer: a,
        ..NOTHING
    }
}

// 1: a run is stored, and nothing answered.
pub fn stored(run: Store) -> Decision
    ensures { result ≡ made.stored run }
{
    Decision {
        outcome: DONE,
        first: run,
        ..NOTHING
    }
}
