//! Schedules that a seed draws: activations and deliveries at random within the bounds of a setup, written as a schedule
//! file.
#![tactic(auto)]

mod controllers;
pub mod drawing;
mod fault;
pub mod laws;
pub mod page;
mod pending;
mod progress;
mod recording;
mod sending;
mod tally;
mod within;
pub mod words;

pub use fault::SimFault;
pub use recording::record;
pub use within::ends_in_time;
