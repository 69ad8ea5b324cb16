// Which connection an address has, and which one it may get.
ghost use Rattle.std.specs.Prelude.{◌≡◌, ◌<◌, IfSome};
ghost use Rattle.link.specs.Partners.{number_at, sits, place_of, free_of, place_for};

use crate::Link;
use device::Sessions;
use judge::Session;

// The number of no connection, where an event's connection is told as a number: C has it.
pub const NOBODY: u8 = 255;

// Whether the session is open and the address is its partner's.
fn is_partner(s: Session, partner: u16, source: u16) -> bool
    ensures { result ≡ sits s partner source }
{
    s.opened && partner == source
}

// The connection of an address, if it has one.
#[tactic(auto, unfolding(crate::specs::Partners::place_of))]
pub fn place_of(link: Link, source: u16) -> Option<u8>
    ensures number { number_at result ≡ place_of link source }
    ensures known { IfSome result (λ c. c < 2) }
{
    let q = link.sessions;
    if is_partner(q.first, link.first, source) {
        Some(0)
    } else if is_partner(q.second, link.second, source) {
        Some(1)
    } else {
        None
    }
}

// A connection that is closed, if one is.
#[tactic(auto, unfolding(crate::specs::Partners::free_of))]
fn free_place(q: Sessions) -> Option<u8>
    ensures number { number_at result ≡ free_of q }
    ensures known { IfSome result (λ c. c < 2) }
{
    match (q.first.opened, q.second.opened) {
        (false, _) => Some(0),
        (true, false) => Some(1),
        (true, true) => None,
    }
}

// The connection that a connect opens: the one that the address has, or a closed one.
#[tactic(auto, unfolding(crate::specs::Partners::place_for))]
pub fn place_for(link: Link, source: u16) -> Option<u8>
    ensures number { number_at result ≡ place_for link source }
    ensures known { IfSome result (λ c. c < 2) }
{
    place_of(link, source).or_else(|| free_place(link.sessions))
}
