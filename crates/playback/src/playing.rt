// Playing back: as many events as are due, one after the other, in place.
ghost use Rattle.std.specs.Prelude.{◌≡◌, true, ◌≤◌, length, IfOk};
ghost use Rattle.playback.specs.Trace.{head};
ghost use Rattle.playback.specs.Refusal.{told};
ghost use Rattle.playback.specs.Outcome.{outcome_of};
ghost use Rattle.playback.specs.Playing.{due_of, refusal_in, Plays};
ghost use Rattle.playback.specs.Event.{Due, Ready, Ran};

use crate::event::{is_accepted, play_event};
use crate::layout::line;
use crate::rules::check;
use crate::table::count;
use crate::{Played, Refusal};
use device::Sessions;

// How many events are to be played.
fn due(t: &[u8], from: usize, limit: usize) -> usize
    requires { head ≤ length t.now }
    ensures { result ≡ due_of t.now from limit }
{
    limit.min(count(t).saturating_sub(from))
}

// The same of a trace that may be refused, or have more of them than the log has room for.
pub fn due_in(trace: &[u8], from: usize, limit: usize, log: &[u8]) -> Result<usize, Refusal>
    ensures refused { told result ≡ refusal_in trace.now from limit log.now }
    ensures due { IfOk result (Due trace.now from limit log.now) }
{
    check(trace)?;
    let n = due(trace, from, limit);
    if log.len() < line::SIZE * n {
        return Err(Refusal::Log);
    }
    Ok(n)
}

// n events from event `from` on. The sheet is judged once, before the first of them.
fn play_events(
    q: Sessions,
    sheet: &mut [u8],
    trace: &[u8],
    from: usize,
    n: usize,
    log: &mut [u8],
) -> Sessions
    requires { Ready trace.now from n log.old }
    ensures { Ran q sheet.old trace.now from n log.old result sheet.new log.new }
{
    let known = is_accepted(&sheet[..]);
    let mut sessions = q;
    for j in 0..n {
        let a = line::SIZE * j;
        let z = a + line::SIZE;
        let made = play_event(known, sessions, trace, from + j, sheet, &mut log[a..z]);
        sessions = made.done.sessions;
    }
    sessions
}

// At most `limit` events of the trace, `from` having been played: sheet and sessions become what these make of them, one after
// the other, and the log gets a line for each. Whatever is refused leaves sheet, sessions and log as they were.
pub fn play(
    sessions: Sessions,
    sheet: &mut [u8],
    trace: &[u8],
    from: usize,
    limit: usize,
    log: &mut [u8],
) -> Result<Played, Refusal>
    ensures { Plays sessions sheet.old trace.now from limit log.old (outcome_of sessions result) sheet.new log.new }
{
    let n = due_in(trace, from, limit, &log[..])?;
    let after = play_events(sessions, sheet, trace, from, n, log);
    Ok(Played {
        handled: n as u16,
        sessions: after,
    })
}
