// BOTH ENGINES, each on a sheet and a buffer of its own that hold the same: they give the same, and leave the same.
ghost use Rattle.std.specs.Prelude.{◌≡◌};
ghost use Rattle.plain.specs.Same.{Same};

use crate::Twice;
use device::Sessions;

pub fn both(
    sessions: Sessions,
    mode: u8,
    connection: u8,
    group: u16,
    apdu: &[u8],
    sheet: &mut [u8],
    answer: &mut [u8],
    copy: &mut [u8],
    buffer: &mut [u8],
) -> Twice
    requires { (copy.old ≡ sheet.old) × (buffer.old ≡ answer.old) }
    ensures { Same result.first result.plain sheet.new copy.new answer.new buffer.new }
{
    let made = device::request(sessions, mode, connection, group, apdu, sheet, answer);
    let plain = crate::request(sessions, mode, connection, group, apdu, copy, buffer);
    let first = made.done;
    Twice { first, plain }
}
