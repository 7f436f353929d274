//! A schedule that is drawn for a program, its inputs and a setup, by the pace of its protocol: where links lose messages, with losses; with the
//! periods drawn from the whole of their intervals or from a part around the middle. It is drawn in memory, from the files that it is of.
#![tactic(auto)]

mod drawing;
pub mod laws;
mod recorded;
mod scheduling;

pub use scheduling::schedule;
