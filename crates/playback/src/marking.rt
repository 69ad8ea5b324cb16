// Playing back with marks: of each byte of the sheet, and of each level, the number of the event after which it was another last.
ghost use Rattle.std.specs.Prelude.{◌≡◌, true, ◌≤◌, ◌<◌, length};
ghost use Rattle.sheet.specs.Demand.{Tells};
ghost use Rattle.sheet.specs.Rules.{Accepted};
ghost use Rattle.playback.specs.Trace.{count};
ghost use Rattle.playback.specs.Rules.{Playable};
ghost use Rattle.playback.specs.Refusal.{told};
ghost use Rattle.playback.specs.Outcome.{outcome_of};
ghost use Rattle.playback.specs.Playing.{line as lineLength};
ghost use Rattle.playback.specs.Marking.{mark_demands, Marks};
ghost use Rattle.playback.specs.Event.{Ready, Roomy, MarkedEvent, RanMarked};

use crate::event::{is_accepted, play_event};
use crate::layout::line;
use crate::playing::due_in;
use crate::{Played, Refusal};
use account::mark;
use device::Sessions;

// The last number that a mark can have.
const LAST: u64 = u32::MAX as u64;

// How many numbers there are behind those of the sheet: the marks of both levels.
const LEVELS: usize = 2;

// Of a sheet of k bytes, n events being due.
fn mark_rule(k: usize, n: usize, played: u32, seen: usize, marks: usize) -> Result<(), Refusal>
    requires { (n ≤ 512) × (k < 9223372036854775808) }
    ensures { Tells (told result) (mark_demands k n played seen marks) }
{
    if seen != k || marks != k + LEVELS {
        return Err(Refusal::Marks);
    }
    if LAST < played as u64 + n as u64 {
        return Err(Refusal::Numbers);
    }
    Ok(())
}

// Event i, its line in the log, and its marks.
fn mark_event(
    known: bool,
    q: Sessions,
    trace: &[u8],
    i: usize,
    sheet: &mut [u8],
    log: &mut [u8],
    seen: &mut [u8],
    marks: &mut [u32],
    played: u32,
) -> Sessions
    requires { Playable trace.now × (i < count trace.now) × (length log.old ≡ lineLength) × Roomy sheet.old 1 played seen.old marks.old × (known ≡ true → Accepted sheet.old) }
    ensures { MarkedEvent q sheet.old trace.now i played marks.old result sheet.new log.new seen.new marks.new }
{
    let made = play_event(known, q, trace, i, sheet, log);
    let after = made.done.sessions;
    mark(marks, seen, &sheet[..], made.changed, q, after, played + 1);
    after
}

// n events from event `from` on. The sheet is judged once, before the first of them. The loop stands here and in `playing`: a trait
// with marks or none would have to say what becomes of two lent slices over a run, which is longer than both loops.
fn mark_events(
    q: Sessions,
    sheet: &mut [u8],
    trace: &[u8],
    from: usize,
    n: usize,
    log: &mut [u8],
    seen: &mut [u8],
    marks: &mut [u32],
    played: u32,
) -> Sessions
    requires { Ready trace.now from n log.old × Roomy sheet.old n played seen.old marks.old }
    ensures { RanMarked q sheet.old trace.now from n log.old played marks.old result
        sheet.new log.new seen.new marks.new }
{
    let known = is_accepted(&sheet[..]);
    let mut sessions = q;
    for j in 0..n {
        let a = line::SIZE * j;
        let z = a + line::SIZE;
        sessions = mark_event(
            known,
            sessions,
            trace,
            from + j,
            sheet,
            &mut log[a..z],
            seen,
            marks,
            played + j as u32,
        );
    }
    sessions
}

// As `play` does it, with marks; `played` events had been marked before. `seen` is room for the sheet.
pub fn play_marked(
    sessions: Sessions,
    sheet: &mut [u8],
    trace: &[u8],
    from: usize,
    limit: usize,
    log: &mut [u8],
    seen: &mut [u8],
    marks: &mut [u32],
    played: u32,
) -> Result<Played, Refusal>
    ensures { Marks sessions sheet.old trace.now from limit log.old played seen.old
        marks.old (outcome_of sessions result) sheet.new log.new seen.new marks.new }
{
    let n = due_in(trace, from, limit, &log[..])?;
    mark_rule(sheet.len(), n, played, seen.len(), marks.len())?;
    octets::splice(seen, 0, &sheet[..]);
    let after = mark_events(sessions, sheet, trace, from, n, log, seen, marks, played);
    Ok(Played {
        handled: n as u16,
        sessions: after,
    })
}
