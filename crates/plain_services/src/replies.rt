// The replies of the services.
ghost use Rattle.std.specs.Prelude.{◌≡◌, [], ◌≤◌, length};
ghost use Rattle.octets.specs.Bytes.{bytes_of};
ghost use Rattle.plain_services.specs.Refusal.{number_of as refusal_number};
ghost use Rattle.judge.specs.declared.Turn.TheVariants.{Stays};
ghost use Rattle.plain_services.specs.Outcome.{number_of};
ghost use Rattle.plain_services.specs.Steps.{Gives};

use crate::{Outcome, Refusal, Reply};
use judge::Turn;
use parts::Parts;
use pdu::Pdu;

// A reply with its data. Every reply is made here.
pub fn reply(parts: Parts, outcome: Outcome, turn: Turn, sent: Option<Pdu>, d: &[u8]) -> Reply
    requires { length d.now ≤ 14 }
    ensures { Gives result (number_of outcome) parts turn sent d.now }
{
    let mut bytes = [0u8; 14];
    octets::splice(&mut bytes, 0, d);
    Reply {
        outcome,
        parts,
        turn,
        sent,
        bytes,
        length: d.len(),
    }
}

// Refused or ignored, and nothing is sent.
pub fn refused(parts: Parts, refusal: Refusal) -> Reply
    ensures { Gives result (refusal_number refusal) parts Stays None [] }
{
    reply(parts, Outcome::Refused(refusal), Turn::Stays, None, &[])
}

// Refused, and the negative answer is sent.
pub fn denied(parts: Parts, pdu: Pdu) -> Reply
    ensures { Gives result 11 parts Stays (Some pdu) [] }
{
    reply(
        parts,
        Outcome::Refused(Refusal::Denied),
        Turn::Stays,
        Some(pdu),
        &[],
    )
}

// Done, and nothing is sent.
pub fn done(parts: Parts) -> Reply
    ensures { Gives result 1 parts Stays None [] }
{
    reply(parts, Outcome::Done, Turn::Stays, None, &[])
}

// Answered, with data.
pub fn answered(parts: Parts, pdu: Pdu, d: &[u8]) -> Reply
    requires { length d.now ≤ 14 }
    ensures { Gives result 0 parts Stays (Some pdu) d.now }
{
    reply(parts, Outcome::Answered, Turn::Stays, Some(pdu), d)
}
