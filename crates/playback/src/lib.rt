// A recorded trace of events: judged, and played back on a device.
#![tactic(auto)]

mod event;
mod layout;
mod marking;
mod playing;
mod refusal;
mod rules;
mod table;

use device::Sessions;
pub use event::EventKind;
pub use marking::play_marked;
pub use playing::play;
pub use refusal::Refusal;
pub use rules::check;

// What playing gave: how many events were handled, and the sessions afterwards.
#[derive(Clone, Copy)]
pub struct Played {
    pub handled: u16,
    pub sessions: Sessions,
}
