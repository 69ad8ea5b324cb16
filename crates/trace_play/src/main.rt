// Plays a recorded trace: standard input has a sheet, then the trace. Says each event, its outcome and answer, then the sessions
// and whether the sheet changed; or by which rule the sheet, or by which number the trace, is refused.
#![tactic(auto)]

ghost use Rattle.std.specs.Prelude.{◌≡◌, ◌≤◌, length};
ghost use Rattle.trace_play.specs.Input.{sheet_length};

use device::Sessions;
use lines::{copy, first, part, read_full, rest};
use octets::{number, word};
use sheet::Fault;
use show::{say_end, say_event};

mod show;

// How many bytes of the input are the sheet.
fn sheet_length(input: &[u8]) -> usize
    ensures { result ≡ sheet_length input.now }
{
    if input.len() < 6 {
        return input.len();
    }
    input.len().min(word(input, 4) as usize)
}

// Event i, counted from 0, played and said.
fn play_one(rt: &impl Print, q: Sessions, sheet: &mut [u8], trace: &[u8], i: u16) -> Sessions {
    let mut log = [0u8; 18];
    let played = playback::play(q, sheet, trace, i as usize, 1, &mut log);
    say_event(rt, trace, i, &log);
    match played {
        Ok(played) => played.sessions,
        Err(_) => q,
    }
}

// The first n events.
fn play_all(rt: &impl Print, sheet: &mut [u8], trace: &[u8], n: u16) -> Sessions {
    let mut sessions = device::fresh();
    for i in 0..n {
        sessions = play_one(rt, sessions, sheet, trace, i);
    }
    sessions
}

// The longest sheet that is accepted.
const ROOM: usize = 16384;

// The trace, which can be played, on a copy of the sheet.
fn play(rt: &impl Print, sheet: &[u8], trace: &[u8]) {
    let mut played = [0; ROOM];
    copy(&mut played, sheet);
    let events = (number(trace, 0, 2) % 65536) as u16;
    let sessions = play_all(rt, first(&mut played, sheet.len()), trace, events);
    say_end(rt, sessions, part(&played, 0, sheet.len()) == sheet);
}

// The trace played, if neither is refused.
fn judged(rt: &impl Print, sheet: &[u8], trace: &[u8]) {
    match sheet::check(sheet) {
        Ok(()) => {}
        Err(Fault::Old) => {
            let _ = println!(rt; "sheet refused: OLD");
            return;
        }
        Err(fault) => {
            let rule = fault.number();
            let _ = println!(rt; "sheet refused: S{rule}");
            return;
        }
    }
    match playback::check(trace) {
        Ok(()) => play(rt, sheet, trace),
        Err(refusal) => {
            let rule = refusal.number();
            let _ = println!(rt; "trace refused: {rule}");
        }
    }
}

fn told(rt: &impl Print, input: &[u8]) {
    let at = sheet_length(input);
    judged(rt, part(input, 0, at), rest(input, at));
}

// More than the longest sheet that bytes 4 and 5 can state and the longest trace that can be played have together: what is
// longer is refused as its beginning is, and so is one whose read fails on the way.
const BUFFER: usize = 262144;

fn main(rt: HostRuntime) {
    let mut input = [0; BUFFER];
    let n = read_full(&mut rt.stdin(), &mut input);
    told(&rt, &input[..n]);
}
