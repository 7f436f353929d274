//! A network along a drawn list of events: each event is taken as it is drawn, so that neither the list nor a text of it is held.
#![tactic(auto)]

mod playing;
mod replaying;

pub use replaying::replay_drawn;
