// The archive for C of the device: the calls of include/kelindap.h, kelindap_store.h, kelindap_trace.h, kelindap_link.h and
// kelindap_slots.h, each the function of `host` by its name, with that one's contract.
#![tactic(auto)]

ghost use Rattle.std.specs.Prelude.{◌≡◌};
ghost use Rattle.slots.specs.Slot.{slot_of, newer_of, target_of};
ghost use Rattle.slots.specs.Parts.{begin_of, more_of, end_of};
ghost use Rattle.slots.specs.Saving.{WorksAs};
ghost use Rattle.sheet.specs.Rules.{verdict_of};
ghost use Rattle.sheet.specs.Convert.{Converts};
ghost use Rattle.sheet.specs.Lookup.{StandsIn, region_of, region_from, user_region_of, user_region_from, property_of, property_from, group_of, group_from};
ghost use Rattle.device.specs.Sessions.{fresh_of};
ghost use Rattle.device.specs.Events.{Pressed};
ghost use Rattle.device.specs.Changed.{Requested};
ghost use Rattle.versions.specs.Rules.{store_rule};
ghost use Rattle.versions.specs.Saving.{SavedAs};
ghost use Rattle.versions.specs.Removing.{Removed};
ghost use Rattle.versions.specs.Kept.{kept_of};
ghost use Rattle.playback.specs.Rules.{refusal_of};
ghost use Rattle.playback.specs.Playing.{Plays};
ghost use Rattle.playback.specs.Marking.{Marks};
ghost use Rattle.cemi.specs.Read.{read_frame};
ghost use Rattle.link.specs.Hearing.{own_of, heard_of};
ghost use Rattle.link.specs.Serving.{ServedFrame};
ghost use Rattle.host.specs.Calls.{Connects, Disconnects, Restores, gave, gave_played, version_of};
ghost use Rattle.host.specs.Bus.{sender_of, arrival_of, gave_served};

use device::Sessions;
use host::{Answered, Arrival, Handled, Reply};
use link::Link;
use sheet::Part;
use slots::{Judging, Slot, Target, Work};
use versions::{Listed, Saved};

// Sessions that nobody has connected to.
#[unsafe(no_mangle)]
pub extern "C" fn kelindap_fresh() -> Sessions
    ensures { result ≡ fresh_of }
{
    host::kelindap_fresh()
}

// The session of the connection is open at level 3, whatever it was.
#[unsafe(no_mangle)]
pub extern "C" fn kelindap_connect(sessions: &mut Sessions, connection: u8) -> u8
    ensures { Connects sessions.old connection result sessions.new }
{
    host::kelindap_connect(sessions, connection)
}

// The session of the connection is closed at level 3, whatever it was.
#[unsafe(no_mangle)]
pub extern "C" fn kelindap_disconnect(sessions: &mut Sessions, connection: u8) -> u8
    ensures { Disconnects sessions.old connection result sessions.new }
{
    host::kelindap_disconnect(sessions, connection)
}

// The programming button.
#[unsafe(no_mangle)]
pub extern "C" fn kelindap_button(sheet: &mut [u8], on: bool) -> u8
    ensures { Pressed sheet.old on result sheet.new }
{
    host::kelindap_button(sheet, on)
}

// A request in place: the sessions become what the request makes of them.
#[unsafe(no_mangle)]
pub extern "C" fn kelindap_request(
    sessions: &mut Sessions,
    sheet: &mut [u8],
    mode: u8,
    connection: u8,
    group: u16,
    apdu: &[u8],
    answer: &mut [u8],
) -> Reply
    ensures { Requested sessions.old mode connection group apdu.now sheet.old answer.old
        (gave result sessions.new) sheet.new answer.new }
{
    host::kelindap_request(sessions, sheet, mode, connection, group, apdu, answer)
}

// What is said of a sheet: the first rule that it breaks, 14 if it is old, or 0.
#[unsafe(no_mangle)]
pub extern "C" fn kelindap_check(sheet: &[u8]) -> u8
    ensures { result ≡ verdict_of sheet.now }
{
    host::kelindap_check(sheet)
}

// An old sheet becomes one of edition 2: 1. Any other stays as found: 4.
#[unsafe(no_mangle)]
pub extern "C" fn kelindap_convert(sheet: &mut [u8]) -> u8
    ensures { Converts sheet.old result sheet.new }
{
    host::kelindap_convert(sheet)
}

// Where the body of a property stands.
#[unsafe(no_mangle)]
pub extern "C" fn kelindap_property(sheet: &[u8], object: u8, id: u8) -> Part
    ensures { StandsIn sheet.now result (property_of sheet.now object id) (property_from sheet.now object id) }
{
    host::kelindap_property(sheet, object, id)
}

// Where the body of region k stands, counted from 0.
#[unsafe(no_mangle)]
pub extern "C" fn kelindap_region(sheet: &[u8], k: usize) -> Part
    ensures { StandsIn sheet.now result (region_of sheet.now k) (region_from sheet.now k) }
{
    host::kelindap_region(sheet, k)
}

// Where the body of user region k stands, counted from 0.
#[unsafe(no_mangle)]
pub extern "C" fn kelindap_user_region(sheet: &[u8], k: usize) -> Part
    ensures { StandsIn sheet.now result (user_region_of sheet.now k) (user_region_from sheet.now k) }
{
    host::kelindap_user_region(sheet, k)
}

// Where the body of a group object stands.
#[unsafe(no_mangle)]
pub extern "C" fn kelindap_group(sheet: &[u8], address: u16) -> Part
    ensures { StandsIn sheet.now result (group_of sheet.now address) (group_from sheet.now address) }
{
    host::kelindap_group(sheet, address)
}

// The first rule that the trace breaks, 50 to 58, or 0.
#[unsafe(no_mangle)]
pub extern "C" fn kelindap_trace_check(trace: &[u8]) -> u8
    ensures { result ≡ refusal_of trace.now }
{
    host::kelindap_trace_check(trace)
}

// At most `limit` events of the trace, `from` having been played, in place: the sessions become what these make of them.
#[unsafe(no_mangle)]
pub extern "C" fn kelindap_play(
    sessions: &mut Sessions,
    sheet: &mut [u8],
    trace: &[u8],
    from: usize,
    limit: usize,
    log: &mut [u8],
) -> Handled
    ensures { Plays sessions.old sheet.old trace.now from limit log.old
        (gave_played result sessions.new) sheet.new log.new }
{
    host::kelindap_play(sessions, sheet, trace, from, limit, log)
}

// The same with marks, `played` events having been marked before.
#[unsafe(no_mangle)]
pub extern "C" fn kelindap_play_marked(
    sessions: &mut Sessions,
    sheet: &mut [u8],
    trace: &[u8],
    from: usize,
    limit: usize,
    log: &mut [u8],
    before: &mut [u8],
    marks: &mut [u32],
    played: u32,
) -> Handled
    ensures { Marks sessions.old sheet.old trace.now from limit log.old played
        before.old marks.old (gave_played result sessions.new) sheet.new log.new
        before.new marks.new }
{
    host::kelindap_play_marked(
        sessions, sheet, trace, from, limit, log, before, marks, played,
    )
}

// The version of this library.
#[unsafe(no_mangle)]
pub extern "C" fn kelindap_version() -> u32
    ensures { result ≡ version_of }
{
    host::kelindap_version()
}

// 0 for a good store, else 30.
#[unsafe(no_mangle)]
pub extern "C" fn kelindap_store_check(store: &[u8]) -> u8
    ensures { result ≡ store_rule store.now }
{
    host::store::kelindap_store_check(store)
}

// The sheet's properties saved under the next number.
#[unsafe(no_mangle)]
pub extern "C" fn kelindap_save(sheet: &[u8], store: &mut [u8]) -> Saved
    ensures { SavedAs sheet.now store.old result store.new }
{
    host::store::kelindap_save(sheet, store)
}

// The version with a number restored, on behalf of a connection.
#[unsafe(no_mangle)]
pub extern "C" fn kelindap_restore(
    sessions: Sessions,
    connection: u8,
    sheet: &mut [u8],
    store: &[u8],
    number: usize,
) -> u8
    ensures { Restores sessions connection sheet.old store.now number result sheet.new }
{
    host::store::kelindap_restore(sessions, connection, sheet, store, number)
}

// The version with a number removed.
#[unsafe(no_mangle)]
pub extern "C" fn kelindap_remove(store: &mut [u8], number: usize) -> u8
    ensures { Removed store.old number result store.new }
{
    host::store::kelindap_remove(store, number)
}

// The k-th version that a store keeps, counted from 0.
#[unsafe(no_mangle)]
pub extern "C" fn kelindap_kept(store: &[u8], k: usize) -> Listed
    ensures { result ≡ kept_of store.now k }
{
    host::store::kelindap_kept(store, k)
}

// The event of a frame for the device with this sheet, or the number of why there is none; and who sent it.
#[unsafe(no_mangle)]
pub extern "C" fn kelindap_heard(link: Link, sheet: &[u8], frame: &[u8]) -> Arrival
    ensures { result ≡ arrival_of (heard_of link (own_of sheet.now) frame.now) (sender_of (read_frame frame.now)) }
{
    host::bus::kelindap_heard(link, sheet, frame)
}

// A frame in, at most one frame out, in place: the link becomes what the frame makes of it.
#[unsafe(no_mangle)]
pub extern "C" fn kelindap_serve(
    link: &mut Link,
    sheet: &mut [u8],
    frame: &[u8],
    out: &mut [u8],
    sequence: u8,
) -> Answered
    ensures { ServedFrame link.old sequence frame.now sheet.old out.old (gave_served result link.new) sheet.new out.new }
{
    host::bus::kelindap_serve(link, sheet, frame, out, sequence)
}

// What a slot holds.
#[unsafe(no_mangle)]
pub extern "C" fn kelindap_slot(slot: &[u8]) -> Slot
    ensures { result ≡ slot_of slot.now }
{
    host::places::kelindap_slot(slot)
}

// The front of a slot that has this room.
#[unsafe(no_mangle)]
pub extern "C" fn kelindap_slot_begin(front: &[u8], room: usize) -> Judging
    ensures { result ≡ begin_of front.now room }
{
    host::places::kelindap_slot_begin(front, room)
}

// The bytes behind it, in parts of any length.
#[unsafe(no_mangle)]
pub extern "C" fn kelindap_slot_more(judging: Judging, bytes: &[u8]) -> Judging
    ensures { result ≡ more_of judging bytes.now }
{
    host::places::kelindap_slot_more(judging, bytes)
}

// What the slot holds that was handed over.
#[unsafe(no_mangle)]
pub extern "C" fn kelindap_slot_end(judging: Judging) -> Slot
    ensures { result ≡ end_of judging }
{
    host::places::kelindap_slot_end(judging)
}

// Which of two slots a unit starts with.
#[unsafe(no_mangle)]
pub extern "C" fn kelindap_slot_newer(first: Slot, second: Slot) -> u8
    ensures { result ≡ newer_of first second }
{
    host::places::kelindap_slot_newer(first, second)
}

// Where the next save goes.
#[unsafe(no_mangle)]
pub extern "C" fn kelindap_slot_target(first: Slot, second: Slot) -> Target
    ensures { result ≡ target_of first second }
{
    host::places::kelindap_slot_target(first, second)
}

// A piece of a save.
#[unsafe(no_mangle)]
pub extern "C" fn kelindap_slot_work(
    sheet: &[u8],
    number: u32,
    room: usize,
    piece: u8,
    buffer: &mut [u8],
) -> Work
    ensures { WorksAs piece number sheet.now room buffer.old result buffer.new }
{
    host::places::kelindap_slot_work(sheet, number, room, piece, buffer)
}
