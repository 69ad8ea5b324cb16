// Division of signed numbers to the nearest, a half toward zero.
ghost use Rattle.std.specs.Prelude.{◌≡◌, ◌+◌, ◌*◌, ◌-◌, ◌≤◌, ◌<◌, nat_abs, neg_ℤ, pos};
ghost use Rattle.points.specs.Code.{quotient as quotient_of};

// What is divided by twice p for m / p to the nearest, so that a half goes toward zero.
fn dividend(m: u32, p: u32) -> u32
    requires { (m ≤ 67108864) × (0 < p) × (p ≤ 32768) }
    ensures { result ≡ 2 * m + p - 1 }
{
    2 * m + p - 1
}

// x / p to the nearest, a half toward zero: signed division drops what is left over.
pub fn quotient(x: i32, p: u32) -> i32
    requires { (nat_abs x ≤ 67108864) × (0 < p) × (p ≤ 32768) }
    ensures { result ≡ quotient_of x p }
{
    let t = dividend(x.unsigned_abs(), p);
    let d = (2 * p) as i32;
    if x < 0 { -(t as i32) / d } else { t as i32 / d }
}
