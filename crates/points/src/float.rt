// Type 14: a float by its bits.
ghost use Rattle.std.specs.Prelude.{◌≡◌, cond};
ghost use Rattle.std.specs.Float.{binary32};
ghost use Rattle.std.specs.Float.Ieee.{of_bits};
ghost use Rattle.points.specs.Point.{finite_bits, Numbered};
ghost use Rattle.points.specs.declared.Datapoint.TheVariants.{Float as Single};

use crate::{Datapoint, Refusal};

// The float that has these bits, unless it is an infinity or NaN.
pub fn point(n: u32) -> Result<Datapoint, Refusal>
    ensures { result ≡ cond (finite_bits n) (Ok (Single (of_bits binary32 n))) (Err Refusal.Infinite) }
{
    // `from_bits` asks that there is no NaN, so the exponent's eight bits are tested first.
    if n / 8388608 % 256 < 255 {
        Ok(Datapoint::Float(f32::from_bits(n)))
    } else {
        Err(Refusal::Infinite)
    }
}

// The bits of a float that is no infinity and no NaN.
#[tactic(auto, using(crate::proofs::Floats::finite_is))]
pub fn coded(x: f32) -> Result<u32, Refusal>
    ensures { Numbered (Single x) result }
{
    if x.is_finite() {
        Ok(x.to_bits())
    } else {
        Err(Refusal::Infinite)
    }
}
