// Authorize, key write and restart.
ghost use Rattle.std.specs.Prelude.{◌≡◌, List, [], ℕ};
ghost use Rattle.judge.specs.Keys.{grant_of, authorize_of, key_write_of, restart_of};
ghost use Rattle.parts.specs.Records.{IsHead};
ghost use Rattle.plain_services.specs.Steps.{Serves};

use crate::replies::{answered, denied, reply};
use crate::{Outcome, Reply};
use judge::Turn;
use parts::{Head, Parts};
use pdu::Pdu;

// The smallest of 0, 1, 2 that has the key, else 3.
fn level_with(head: Head, key: u32) -> u8
    ensures { (s : List ℕ) → IsHead head s → result ≡ grant_of s key }
{
    let keys = head.keys;
    for level in 0..3 {
        if key == keys[level] {
            return level as u8;
        }
    }
    3
}

// Authorize: a wrong key gives up rights.
pub fn authorize(parts: Parts, key: u32) -> Reply
    ensures { Serves parts [] (λ s. authorize_of s key) result }
{
    let level = level_with(parts.head, key);
    let response = Pdu::AuthorizeResponse { level };
    reply(
        parts,
        Outcome::Answered,
        Turn::Level(level),
        Some(response),
        &[],
    )
}

// A new key for the level named: 0 to 2, and not above the rights of the one who asks.
pub fn key_write(mut parts: Parts, level: u8, named: u8, key: u32) -> Reply
    ensures { Serves parts [] (λ s. key_write_of level named key) result }
{
    if 2 < named || named < level {
        return denied(parts, Pdu::KeyResponse { level: 255 });
    }
    let mut head = parts.head;
    head.keys[named as usize] = key;
    parts.head = head;
    answered(parts, Pdu::KeyResponse { level: named }, &[])
}

// Restart: programming mode is cleared, and both sessions are closed.
pub fn restart(mut parts: Parts) -> Reply
    ensures { Serves parts [] (λ s. restart_of s) result }
{
    parts.head.programming = false;
    reply(parts, Outcome::Done, Turn::Closes, None, &[])
}
