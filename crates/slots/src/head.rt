// The head of a slot.
ghost use Rattle.std.specs.Prelude.{◌≡◌, ◌≤◌, length};
ghost use Rattle.slots.specs.Slot.{head_of, longest};

use crate::crc::{ONES, update};
use octets::put;

// The head of a slot that holds the sheet under a number.
pub fn head(number: u32, sheet: &[u8]) -> [u8; 32]
    requires { length sheet.now ≤ longest }
    ensures { result ≡ head_of number sheet.now }
{
    let mut h = [0u8; 32];
    put(&mut h, 4, 4, number as u64);
    put(&mut h, 8, 4, sheet.len() as u64);
    let c = update(update(ONES, &h[4..32]), sheet);
    put(&mut h, 0, 4, (ONES - c) as u64);
    h
}
