// What a call is refused by on a sheet; and the conversion of an old sheet.
ghost use Rattle.std.specs.Prelude.{◌≡◌, ◌↔◌, IsTrue, true};
ghost use Rattle.sheet.specs.Fault.{number_of as fault_number};
ghost use Rattle.sheet.specs.Refused.{number_of, told, told_converted};
ghost use Rattle.sheet.specs.Rules.{refusal as refusal_by, refusal_of, Accepted, Old};
ghost use Rattle.sheet.specs.Convert.{Converts};

use crate::layout::head;
use crate::walk::check;
use crate::{Fault, Refused};

impl From<Fault> for Refused {
    ghost from_gives = { λ fault refusal. number_of refusal ≡ refusal_by (fault_number fault) };

    fn from(fault: Fault) -> Refused {
        match fault {
            Fault::Old => Refused::Old,
            _ => Refused::Bad,
        }
    }
}

// Old on an old sheet, Bad on a bad one; on an accepted one nothing is refused.
pub fn refusal(sheet: &[u8]) -> Result<(), Refused>
    ensures { told result ≡ refusal_of sheet.now }
{
    check(sheet)?;
    Ok(())
}

fn is_old(sheet: &[u8]) -> bool
    ensures { IsTrue result ↔ Old sheet.now }
{
    matches!(check(sheet), Err(Fault::Old))
}

// An old sheet becomes one of edition 2, byte 0 alone changed. Any other, an accepted one too, stays as found: Bad.
pub fn convert(sheet: &mut [u8]) -> Result<(), Refused>
    ensures { Converts sheet.old (told_converted result) sheet.new }
{
    if !is_old(&sheet[..]) {
        return Err(Refused::Bad);
    }
    octets::put(sheet, head::EDITION, 1, 2);
    Ok(())
}

// `known` stays a bool: `device::request_known` and `button_known`, which documents name, hand on what a host knows.
// The same as `refusal` where it may be known that the sheet is accepted: then it is not judged again.
pub fn refusal_unless(known: bool, sheet: &[u8]) -> Result<(), Refused>
    requires { known ≡ true → Accepted sheet.now }
    ensures { told result ≡ refusal_of sheet.now }
{
    if known { Ok(()) } else { refusal(sheet) }
}
