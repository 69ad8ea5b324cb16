// The rules of a trace: the first that is broken.
ghost use Rattle.std.specs.Prelude.{◌≡◌, ◌≤◌, length};
ghost use Rattle.sheet.specs.Demand.{Tells};
ghost use Rattle.playback.specs.Entry as entry;
ghost use Rattle.playback.specs.Refusal.{told};
ghost use Rattle.playback.specs.Rules.{head_demands, stray as strayOf, event_demands, head_rule, walk_rule, refusal_of};
ghost use Rattle.playback.specs.Walk.{Inside, Judges};

use crate::Refusal;
use crate::event::EventKind;
use crate::layout::{EVENTS_MOST, HEAD, entry};
use crate::table::{count, part};
use octets::{byte, word};

fn head_rule(t: &[u8]) -> Result<(), Refusal>
    ensures { Tells (told result) (head_demands t.now) }
{
    if t.len() < HEAD {
        return Err(Refusal::Short);
    }
    let n = count(t);
    if EVENTS_MOST < n {
        return Err(Refusal::Many);
    }
    if t.len() < HEAD + entry::SIZE * n {
        return Err(Refusal::Table);
    }
    Ok(())
}

// The length of an event that is no request.
fn stray(e: &[u8]) -> usize
    ensures { result ≡ strayOf e.now }
{
    if byte(e, entry::KIND) == 0 {
        0
    } else {
        byte(e, entry::LENGTH) as usize
    }
}

// Of an event whose APDU is to begin at z, in a trace of n bytes.
fn event_rule(e: &[u8], z: usize, n: usize) -> Result<(), Refusal>
    requires { (length e.now ≡ entry.size) × (z ≤ n) }
    ensures { Tells (told result) (event_demands z n e.now) }
{
    if EventKind::of(byte(e, entry::KIND)).is_none() {
        return Err(Refusal::Kind);
    }
    if stray(e) != 0 {
        return Err(Refusal::Stray);
    }
    if byte(e, entry::ZERO) != 0 {
        return Err(Refusal::Zero);
    }
    if word(e, entry::OFFSET) as usize != z {
        return Err(Refusal::Offset);
    }
    if n - z < byte(e, entry::LENGTH) as usize {
        return Err(Refusal::PastEnd);
    }
    Ok(())
}

// The same of event i: where its APDU ends.
fn step(t: &[u8], i: usize, z: usize) -> Result<usize, Refusal>
    requires { Inside t.now i × (z ≤ length t.now) }
    ensures { Judges t.now i z result }
{
    let e = part(t, i);
    event_rule(e, z, t.len())?;
    Ok(z + byte(e, entry::LENGTH) as usize)
}

// Event by event, and then the end.
fn walk(t: &[u8]) -> Result<(), Refusal>
    requires { head_rule t.now ≡ 0 }
    ensures { told result ≡ walk_rule t.now }
{
    let n = count(t);
    let mut z = HEAD + entry::SIZE * n;
    for i in 0..n {
        z = step(t, i, z)?;
    }
    if z == t.len() {
        Ok(())
    } else {
        Err(Refusal::LeftOver)
    }
}

// Refused by the first rule that the trace breaks.
pub fn check(trace: &[u8]) -> Result<(), Refusal>
    ensures { told result ≡ refusal_of trace.now }
{
    head_rule(trace)?;
    walk(trace)
}
