// Versions of the settings, kept in a lent buffer.
#![tactic(auto)]

mod layout;
mod linking;
mod listing;
mod refusal;
mod removing;
mod restoring;
mod rules;
mod saving;
mod settings;
mod table;

pub use listing::{Listed, kept};
pub use refusal::Refusal;
pub use removing::remove;
pub use restoring::restore;
pub use rules::check;
pub use saving::{Saved, save};
