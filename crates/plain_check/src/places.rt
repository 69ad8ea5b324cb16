// Where the entries of a sheet stand, by kind.
ghost use Rattle.std.specs.Prelude.{◌≤◌, ◌<◌};
ghost use Rattle.octets.specs.Bytes.{IsNum};
ghost use Rattle.plain_check.specs.Kind.{number_of};
ghost use Rattle.plain_check.specs.Tests.{Counted, Placed};

use crate::Kind;
use octets::{byte, number};

// The number in the two bytes from a place, the first byte the higher.
pub fn word(s: &[u8], at: usize) -> usize
    requires { at ≤ 16384 }
    ensures { IsNum s.now at 2 65536 result }
{
    number(s, at, 2) as usize
}

// How many entries of a kind there are: bytes 1 to 3 say, and byte 15 of the user regions, of which edition 1 has none.
pub fn count(s: &[u8], kind: Kind) -> usize
    ensures { Counted s.now (number_of kind) result }
{
    match kind {
        Kind::Regions => byte(s, 1) as usize,
        Kind::Properties => byte(s, 2) as usize,
        Kind::Groups => byte(s, 3) as usize,
        Kind::Users => {
            if byte(s, 0) == 2 {
                byte(s, 15) as usize
            } else {
                0
            }
        }
    }
}

// Where entry i of a kind stands. After the head of 32 bytes come the entries of the regions, of 8 bytes each, of the properties, of 12,
// of the group objects, of 8, and of the user regions, of 8.
pub fn place(s: &[u8], kind: Kind, i: usize) -> usize
    requires { i < 256 }
    ensures { Placed s.now (number_of kind) i result }
{
    let properties = 32 + 8 * count(s, Kind::Regions);
    let groups = properties + 12 * count(s, Kind::Properties);
    match kind {
        Kind::Regions => 32 + 8 * i,
        Kind::Properties => properties + 12 * i,
        Kind::Groups => groups + 8 * i,
        Kind::Users => groups + 8 * count(s, Kind::Groups) + 8 * i,
    }
}
