// Carrying out: what a decision stores, and nothing is judged.
ghost use Rattle.std.specs.Prelude.{◌≡◌, ◌+◌, ◌≤◌, length};
ghost use Rattle.octets.specs.Splice.{splice};
ghost use Rattle.device.specs.Carry.{padded, build, bit_at, store_of};
ghost use Rattle.device.specs.Safe.{StoreSafe, Narrow};
ghost use Rattle.device.specs.Changed.{part as partOf, part_of, changes_of};

use crate::{Changed, Run};
use judge::{Decision, Store};

// That a run lies within the sheet stays a clause: of judge's decisions it is a theorem over the sheet that is stored to (`StoreSafe`).
// n bytes from a place on changed by n AND bytes and then n XOR bytes.
pub fn bits(s: &mut [u8], at: usize, n: usize, d: &[u8])
    requires { (at + n ≤ length s.old) × (length d.now ≡ n + n) }
    ensures { s.new ≡ splice s.old at (build n (bit_at s.old at n d.now)) }
{
    for i in 0..n {
        s[at + i] = (s[at + i] & d[i]) ^ d[n + i];
    }
}

// So many zeros from a place on, then data.
fn put_padded(s: &mut [u8], zeros: usize, at: usize, d: &[u8])
    requires { at + (zeros + length d.now) ≤ length s.old }
    ensures { s.new ≡ splice s.old at (padded zeros d.now) }
{
    octets::fill(s, at, zeros, 0);
    octets::splice(s, at + zeros, d);
}

// One run of bytes.
pub fn store(s: &mut [u8], run: Store, d: &[u8])
    requires { StoreSafe s.old d.now run }
    ensures { s.new ≡ store_of s.old d.now run }
{
    match run {
        Store::Nothing => {}
        Store::Number { at, width, x } => {
            octets::put(s, at, width, x);
        }
        Store::Data { zeros, at } => {
            put_padded(s, zeros, at, d);
        }
        Store::Bits { at, n } => {
            bits(s, at, n, d);
        }
        Store::Fill { at, n, b } => {
            octets::fill(s, at, n, b);
        }
    }
}

// So many bytes from a place on.
fn run_of(at: usize, n: usize) -> Run
    requires { at + n ≤ 16384 }
    ensures { result ≡ partOf at n }
{
    Run {
        offset: at as u16,
        length: n as u16,
    }
}

// Where a run stands in the sheet, and how many bytes it has: 0 and 0 if nothing is stored.
fn part(s: &[u8], run: Store, d: &[u8]) -> Run
    requires { (StoreSafe s.now d.now run) × (Narrow (length s.now) run) }
    ensures { result ≡ part_of d.now run }
{
    match run {
        Store::Nothing => Run::NOTHING,
        Store::Number { at, width, .. } => run_of(at, width),
        Store::Data { zeros, at } => run_of(at, zeros + d.len()),
        Store::Bits { at, n } | Store::Fill { at, n, .. } => run_of(at, n),
    }
}

// Where at most two runs stand that are to be stored.
pub fn changes(s: &[u8], k: Decision, d: &[u8]) -> Changed
    requires { (StoreSafe s.now d.now k.first) × (StoreSafe (store_of s.now d.now k.first) d.now k.second)
        × (Narrow (length s.now) k.first) × (Narrow (length s.now) k.second) }
    ensures { result ≡ changes_of d.now k }
{
    Changed {
        first: part(s, k.first, d),
        second: part(s, k.second, d),
    }
}

// At most two runs.
pub fn carry_out(s: &mut [u8], k: Decision, d: &[u8])
    requires { (StoreSafe s.old d.now k.first) × (StoreSafe (store_of s.old d.now k.first) d.now k.second) }
    ensures { s.new ≡ store_of (store_of s.old d.now k.first) d.now k.second }
{
    store(s, k.first, d);
    store(s, k.second, d);
}
