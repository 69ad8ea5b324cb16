// The number that stands for a datapoint in its bytes, and back.
ghost use Rattle.std.specs.Prelude.{◌≡◌, cond, ltb, eqb};
ghost use Rattle.points.specs.Point.{Numbered};
ghost use Rattle.points.specs.declared.Datapoint.TheVariants.{Switch};

use crate::{Datapoint, Refusal, float, hundredths};

// Bit 0 says on or off; no other may be set.
pub fn switch(n: u32) -> Result<Datapoint, Refusal>
    ensures { result ≡ cond (ltb n 2) (Ok (Switch (eqb n 1))) (Err Refusal.Bits) }
{
    if n < 2 {
        Ok(Datapoint::Switch(n == 1))
    } else {
        Err(Refusal::Bits)
    }
}

// The number of a datapoint, by its case.
pub fn coded(d: Datapoint) -> Result<u32, Refusal>
    ensures { Numbered d result }
{
    match d {
        Datapoint::Switch(on) => Ok(u32::from(on)),
        Datapoint::Byte(n) => Ok(u32::from(n)),
        Datapoint::Hundredths(z) => hundredths::coded(z),
        Datapoint::Float(x) => float::coded(x),
    }
}
