//! Schedules that a seed draws where links lose messages: as over links without losses, and of the messages that arrive some are lost.
#![tactic(auto)]

mod drawing;
mod fresh;
pub mod laws;
mod pending;
mod queue;
mod recording;
mod row;
mod sending;
mod words;

pub use recording::lose;
pub use row::extend_lossy_event;
