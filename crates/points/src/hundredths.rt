// Type 9: what a code says, and the code for a number of hundredths.
ghost use Rattle.std.specs.Prelude.{◌≡◌, true, cond, ◌≤◌, ◌<◌, ◌^◌, eqb, nat_abs};
ghost use Rattle.points.specs.Nine.{res, in_range};
ghost use Rattle.points.specs.Code.{exponent_from, limit as limitOf, packed as packedOf, stepped as steppedOf, code_of};
ghost use Rattle.points.specs.Point.{Numbered};
ghost use Rattle.points.specs.declared.Datapoint.TheVariants.{Hundredths};

use crate::{Datapoint, Refusal, signs};

// An exponent of at most 15 stays a clause of three private functions: a type of exponents would be made at each call.
// 2 to the e.
fn power(e: u32) -> u32
    requires { e ≤ 15 }
    ensures { result ≡ 2 ^ e }
{
    1 << e
}

// M·2^E.
fn result(c: u32) -> i32
    requires { c < 65536 }
    ensures { result ≡ res c }
{
    let p = power(c / 2048 % 16);
    if c < 32768 {
        (c % 2048 * p) as i32
    } else {
        -(((2048 - c % 2048) * p) as i32)
    }
}

// What a code means.
pub fn point(c: u32) -> Result<Datapoint, Refusal>
    requires { c < 65536 }
    ensures { result ≡ cond (eqb c 32767) (Err Refusal.Invalid) (Ok (Hundredths (res c))) }
{
    if c == 32767 {
        Err(Refusal::Invalid)
    } else {
        Ok(Datapoint::Hundredths(result(c)))
    }
}

// Twice the magnitude that rounds to a mantissa.
fn limit(x: i32) -> u32
    ensures { result ≡ limitOf x }
{
    if x < 0 { 4097 } else { 4095 }
}

// The first exponent at which a magnitude rounds to a mantissa, l being the limit.
fn exponent(m: u32, l: u32) -> u32
    requires { (m ≤ 67108864) × (l ≤ 4097) }
    ensures first { result ≡ exponent_from 15 m l 0 }
    ensures four_bits { result ≤ 15 }
{
    for e in 0..15 {
        if 2 * m <= l << e {
            return e;
        }
    }
    15
}

// E and M in a code, M in two's complement.
fn packed(e: u32, m: i32) -> u32
    requires { (e ≤ 15) × (nat_abs m ≤ 2048) }
    ensures { result ≡ packedOf e m }
{
    let q = m.unsigned_abs();
    if m < 0 {
        32768 + e * 2048 + (2048 - q)
    } else {
        e * 2048 + q
    }
}

// A mantissa of -1,024 is -2,048 at the exponent below.
fn stepped(e: u32, m: i32) -> u32
    requires { (e ≤ 15) × (nat_abs m ≤ 2048) }
    ensures { result ≡ steppedOf e m }
{
    if e != 0 && m == -1024 {
        packed(e - 1, -2048)
    } else {
        packed(e, m)
    }
}

// The code for a number in range.
fn code(x: i32) -> u32
    requires { in_range x ≡ true }
    ensures { result ≡ code_of x }
{
    let e = exponent(x.unsigned_abs(), limit(x));
    let m = signs::quotient(x, power(e));
    stepped(e, m)
}

// The least and the greatest result of a code.
const LEAST: i32 = -67108864;

const GREATEST: i32 = 67043328;

// The code of a number in range.
pub fn coded(x: i32) -> Result<u32, Refusal>
    ensures { Numbered (Hundredths x) result }
{
    match x {
        LEAST..=GREATEST => Ok(code(x)),
        _ => Err(Refusal::Range),
    }
}
