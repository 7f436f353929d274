//! What the events of a schedule over links that lose messages are drawn as, up to its first offence.
#![tactic(auto)]

mod file;
pub mod laws;
mod reading;
mod recorder;
mod refusing;
mod sketch;

pub use file::read_lossy_course;
