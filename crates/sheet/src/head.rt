// The numbers of a sheet's head, and where those that can be stored stand.
ghost use Rattle.std.specs.Prelude.{◌≡◌, ◌<◌, ◌≤◌};
ghost use Rattle.sheet.specs.Layout.{◌of◌};
ghost use Rattle.sheet.specs.Head as head;
ghost use Rattle.sheet.specs.Head.{rules_of};

use crate::Sheet;
use crate::layout::head;
use octets::{byte, number};

// The serial number.
pub fn serial(s: &[u8]) -> u64
    ensures { result ≡ head.serial of s.now }
{
    number(s, head::SERIAL, 6)
}

// The mask version.
pub fn mask(s: &[u8]) -> u16
    ensures { result ≡ head.mask of s.now }
{
    number(s, head::MASK, 2) as u16
}

// The number of the later rules.
pub const LATER: u8 = 1;

// The number of the rules that the sheet asks for.
#[tactic(auto, unfolding(crate::specs::Head::rules_of))]
pub fn rules_of(s: &[u8]) -> u8
    ensures { result ≡ rules_of s.now }
{
    byte(s, head::RULES)
}

// The key of a level.
pub fn key(s: &[u8], l: usize) -> u32
    requires { l < 3 }
    ensures { result ≡ head.key l of s.now }
{
    number(s, head::KEYS + 4 * l, 4) as u32
}

// Where they stand.
pub fn flags_at() -> usize
    ensures { result ≡ (head.flags).at }
{
    head::FLAGS
}

pub fn address_at() -> usize
    ensures { result ≡ (head.address).at }
{
    head::ADDRESS
}

pub fn key_at(l: usize) -> usize
    requires { l < 3 }
    ensures { result ≡ (head.key l).at }
{
    head::KEYS + 4 * l
}

impl Sheet<'_> {
    // Programming mode in bit 0, verify in bit 1.
    pub fn flags(self) -> u8
        ensures { (result ≡ head.flags of self.entry.bytes.now) × (result ≤ 3) }
    {
        byte(self.bytes, head::FLAGS)
    }
}
