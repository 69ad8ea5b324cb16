// The C interface of the device: the calls of include/kelindap.h and include/kelindap_trace.h, those on the sessions in place;
// those of include/kelindap_store.h stand in `store`, those of include/kelindap_link.h in `bus`, those of include/kelindap_slots.h in
// `places`.
#![tactic(auto)]

pub mod bus;
pub mod places;
pub mod store;

ghost use Rattle.std.specs.Prelude.{◌≡◌};
ghost use Rattle.sheet.specs.Rules.{verdict_of};
ghost use Rattle.sheet.specs.Refused.{told_converted};
ghost use Rattle.sheet.specs.Convert.{Converts};
ghost use Rattle.sheet.specs.Lookup.{StandsIn, region_of, region_from, user_region_of, user_region_from, property_of, property_from, group_of, group_from};
ghost use Rattle.device.specs.Sessions.{fresh_of};
ghost use Rattle.device.specs.Events.{Pressed};
ghost use Rattle.device.specs.Changed.{Requested};
ghost use Rattle.playback.specs.Refusal.{number_of};
ghost use Rattle.playback.specs.Rules.{refusal_of};
ghost use Rattle.playback.specs.Playing.{Plays};
ghost use Rattle.playback.specs.Marking.{Marks};
ghost use Rattle.host.specs.Calls.{Connects, Disconnects, runs_of, gave, gave_played, version_of};

use device::{Changed, Sessions};
use playback::Played;
use sheet::{Part, Refused};

// The runs that were stored as C has them, in numbers of its own width.
#[repr(C)]
#[derive(Clone, Copy)]
pub struct Wide {
    pub first: Part,
    pub second: Part,
}

// The structs below are C's, by the headers: outcomes and refusals are numbers in them, beside their values.

// What a request gave: its outcome, how many bytes of the answer buffer were filled, and which parts of the sheet were stored.
#[repr(C)]
#[derive(Clone, Copy)]
pub struct Reply {
    pub outcome: u8,
    pub count: u8,
    pub changed: Wide,
}

// What playing gave: its refusal or 0, and how many events were handled.
#[repr(C)]
#[derive(Clone, Copy)]
pub struct Handled {
    pub refusal: u8,
    pub handled: u16,
}

impl From<Played> for Handled {
    ghost from_gives = { λ p h. h ≡ record { refusal = 0; handled = p.handled } };

    fn from(played: Played) -> Handled {
        Handled {
            refusal: 0,
            handled: played.handled,
        }
    }
}

impl From<playback::Refusal> for Handled {
    ghost from_gives = { λ r h. h ≡ record { refusal = number_of r; handled = 0 } };

    fn from(refusal: playback::Refusal) -> Handled {
        Handled {
            refusal: refusal.number(),
            handled: 0,
        }
    }
}

// What a frame is to the device: its event, by its number, or why there is none; its connection, or 255; its destination; who sent
// it, its sequence number, and whether it is a negative acknowledgement.
#[repr(C)]
#[derive(Clone, Copy)]
pub struct Arrival {
    pub event: u8,
    pub connection: u8,
    pub group: u16,
    pub source: u16,
    pub sequence: u8,
    pub negative: bool,
}

// What serving a frame gave: 0 and the event's outcome, or why there is none; its connection, or 255; the count of bytes of the
// frame that answers; and which parts of the sheet were stored.
#[repr(C)]
#[derive(Clone, Copy)]
pub struct Answered {
    pub number: u8,
    pub outcome: u8,
    pub connection: u8,
    pub count: u8,
    pub changed: Wide,
}

// Runs in numbers of C's own width.
pub fn widened(c: Changed) -> Wide
    ensures { c ≡ runs_of result }
{
    let one = c.first;
    let two = c.second;
    Wide {
        first: Part {
            offset: one.offset as usize,
            length: one.length as usize,
        },
        second: Part {
            offset: two.offset as usize,
            length: two.length as usize,
        },
    }
}

// What C gets of a Result stands at each call: the refusals are of several crates, and a trait over them for a match of two lines is no plainer.
// The outcome of a call on a sheet that is done or refused, by its number.
fn done(outcome: Result<(), Refused>) -> u8
    ensures { result ≡ told_converted outcome }
{
    match outcome {
        Ok(()) => 1,
        Err(refused) => refused.number(),
    }
}

// Sessions that nobody has connected to.
pub fn kelindap_fresh() -> Sessions
    ensures { result ≡ fresh_of }
{
    device::fresh()
}

// The session of the connection is open at level 3, whatever it was.
pub fn kelindap_connect(sessions: &mut Sessions, connection: u8) -> u8
    ensures { Connects sessions.old connection result sessions.new }
{
    let d = device::connect(*sessions, connection);
    *sessions = d.sessions;
    d.outcome
}

// The session of the connection is closed at level 3, whatever it was.
pub fn kelindap_disconnect(sessions: &mut Sessions, connection: u8) -> u8
    ensures { Disconnects sessions.old connection result sessions.new }
{
    let d = device::disconnect(*sessions, connection);
    *sessions = d.sessions;
    d.outcome
}

// The programming button.
pub fn kelindap_button(sheet: &mut [u8], on: bool) -> u8
    ensures { Pressed sheet.old on result sheet.new }
{
    done(device::button(sheet, on))
}

// A request in place: the sessions become what the request makes of them.
pub fn kelindap_request(
    sessions: &mut Sessions,
    sheet: &mut [u8],
    mode: u8,
    connection: u8,
    group: u16,
    apdu: &[u8],
    answer: &mut [u8],
) -> Reply
    ensures { Requested sessions.old mode connection group apdu.now sheet.old answer.old
        (gave result sessions.new) sheet.new answer.new }
{
    let made = device::request(*sessions, mode, connection, group, apdu, sheet, answer);
    *sessions = made.done.sessions;
    Reply {
        outcome: made.done.outcome,
        count: made.done.count as u8,
        changed: widened(made.changed),
    }
}

// What is said of a sheet: the first rule that it breaks, 14 if it is old, or 0.
pub fn kelindap_check(sheet: &[u8]) -> u8
    ensures { result ≡ verdict_of sheet.now }
{
    match sheet::check(sheet) {
        Ok(()) => 0,
        Err(fault) => fault.number(),
    }
}

// An old sheet becomes one of edition 2: 1. Any other stays as found: 4.
pub fn kelindap_convert(sheet: &mut [u8]) -> u8
    ensures { Converts sheet.old result sheet.new }
{
    done(sheet::convert(sheet))
}

// Where the body of a property stands.
pub fn kelindap_property(sheet: &[u8], object: u8, id: u8) -> Part
    ensures { StandsIn sheet.now result (property_of sheet.now object id) (property_from sheet.now object id) }
{
    sheet::property_part(sheet, object, id)
}

// Where the body of region k stands, counted from 0.
pub fn kelindap_region(sheet: &[u8], k: usize) -> Part
    ensures { StandsIn sheet.now result (region_of sheet.now k) (region_from sheet.now k) }
{
    sheet::region_part(sheet, k)
}

// Where the body of user region k stands, counted from 0.
pub fn kelindap_user_region(sheet: &[u8], k: usize) -> Part
    ensures { StandsIn sheet.now result (user_region_of sheet.now k) (user_region_from sheet.now k) }
{
    sheet::user_region_part(sheet, k)
}

// Where the body of a group object stands.
pub fn kelindap_group(sheet: &[u8], address: u16) -> Part
    ensures { StandsIn sheet.now result (group_of sheet.now address) (group_from sheet.now address) }
{
    sheet::group_part(sheet, address)
}

// The first rule that the trace breaks, 50 to 58, or 0.
pub fn kelindap_trace_check(trace: &[u8]) -> u8
    ensures { result ≡ refusal_of trace.now }
{
    match playback::check(trace) {
        Ok(()) => 0,
        Err(refusal) => refusal.number(),
    }
}

// At most `limit` events of the trace, `from` having been played, in place: the sessions become what these make of them.
pub fn kelindap_play(
    sessions: &mut Sessions,
    sheet: &mut [u8],
    trace: &[u8],
    from: usize,
    limit: usize,
    log: &mut [u8],
) -> Handled
    ensures { Plays sessions.old sheet.old trace.now from limit log.old
        (gave_played result sessions.new) sheet.new log.new }
{
    match playback::play(*sessions, sheet, trace, from, limit, log) {
        Ok(played) => {
            *sessions = played.sessions;
            played.into()
        }
        Err(refusal) => refusal.into(),
    }
}

// The same with marks, `played` events having been marked before.
pub fn kelindap_play_marked(
    sessions: &mut Sessions,
    sheet: &mut [u8],
    trace: &[u8],
    from: usize,
    limit: usize,
    log: &mut [u8],
    before: &mut [u8],
    marks: &mut [u32],
    played: u32,
) -> Handled
    ensures { Marks sessions.old sheet.old trace.now from limit log.old played
        before.old marks.old (gave_played result sessions.new) sheet.new log.new
        before.new marks.new }
{
    match playback::play_marked(
        *sessions, sheet, trace, from, limit, log, before, marks, played,
    ) {
        Ok(played) => {
            *sessions = played.sessions;
            played.into()
        }
        Err(refusal) => refusal.into(),
    }
}

// The version of this library.
pub fn kelindap_version() -> u32
    ensures { result ≡ version_of }
{
    65536
}
