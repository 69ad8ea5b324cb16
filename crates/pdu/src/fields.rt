// A field from the bytes; missing bytes count as 0.
ghost use Rattle.std.specs.Prelude.{◌≡◌, ◌≤◌, ◌<◌};
ghost use Rattle.octets.specs.Bytes.{num_at};
ghost use Rattle.pdu.specs.Rules.{low_at, four_at, twelve_at};

use crate::Pdu;
use octets::{byte, number};

pub(crate) fn word(s: &[u8], at: usize) -> u16
    requires { at ≤ 16 }
    ensures { result ≡ num_at s.now at 2 }
{
    number(s, at, 2) as u16
}

// Places of at most 16 and moduli of at most 64 stay clauses: they are literals at each call, and a type of them would be no plainer.
// The low bits of the code, as many as m has numbers.
#[tactic(auto, unfolding(crate::specs::Rules::low_at))]
pub(crate) fn low(s: &[u8], m: u64) -> u8
    requires { (0 < m) × (m ≤ 64) }
    ensures { result ≡ low_at s.now m }
{
    (number(s, 0, 2) % m) as u8
}

// The four high bits of two bytes, and the twelve low ones.
#[tactic(auto, unfolding(crate::specs::Rules::four_at))]
pub(crate) fn four(s: &[u8], at: usize) -> u8
    requires { at ≤ 16 }
    ensures { result ≡ four_at s.now at }
{
    (number(s, at, 2) / 4096) as u8
}

#[tactic(auto, unfolding(crate::specs::Rules::twelve_at))]
pub(crate) fn twelve(s: &[u8], at: usize) -> u16
    requires { at ≤ 16 }
    ensures { result ≡ twelve_at s.now at }
{
    (number(s, at, 2) % 4096) as u16
}

// Where a property's PDUs have its object and its identifier.
pub(crate) const OBJECT: usize = 2;

pub(crate) const ID: usize = 3;

// A property's value: object, identifier, count and start.
pub(crate) fn property_value<F: FnOnce(u8, u8, u8, u16) -> Pdu>(s: &[u8], make: F) -> Pdu
    requires { F.IsAlwaysCallable make }
    ensures { F.post make (num_at s.now OBJECT 1) (num_at s.now ID 1) (four_at s.now 4) (twelve_at s.now 4) result }
{
    make(byte(s, OBJECT), byte(s, ID), four(s, 4), twelve(s, 4))
}
