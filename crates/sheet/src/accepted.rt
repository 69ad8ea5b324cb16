// An accepted sheet.
ghost use Rattle.std.specs.Prelude.{◌≡◌, IfOk, true};
ghost use Rattle.octets.specs.Octets.{Octets};
ghost use Rattle.sheet.specs.Refused.{told};
ghost use Rattle.sheet.specs.Rules.{Accepted, refusal_of};

use crate::Refused;
use crate::old::refusal;

// The bytes of a sheet that breaks no rule and is of edition 2.
#[derive(Clone, Copy)]
pub struct Sheet<'a> {
    pub bytes: &'a [u8],
    ghost accepted: { Accepted bytes.now },
    ghost octets: { Octets bytes.now },
}

impl<'a> Sheet<'a> {
    // The sheet, judged.
    pub fn new(bytes: &'a [u8]) -> Result<Sheet<'a>, Refused>
        ensures refusal { told result ≡ refusal_of bytes.now }
        ensures sheet { IfOk result (λ s. s.bytes.now ≡ bytes.now) }
    {
        refusal(bytes)?;
        Ok(Sheet { bytes })
    }

    // The sheet, known to be accepted.
    pub fn known(bytes: &'a [u8]) -> Sheet<'a>
        requires { Accepted bytes.now }
        ensures { result.bytes.now ≡ bytes.now }
    {
        Sheet { bytes }
    }
}
