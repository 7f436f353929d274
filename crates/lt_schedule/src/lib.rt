//! A schedule file judged row by row: it is read in pieces and never whole, and what stands for the state of the
//! architecture takes its events one after another.
#![tactic(auto)]

mod fault;
mod halt;
pub mod laws;
mod replaying;
mod replica;

pub use fault::ScheduleFault;
pub use halt::{Halt, ScheduleRefusal, Stop};
pub use replaying::{replay_lines, replay_schedule};
pub use replica::Replica;
