//! A network from its layout to what its outputs show: its nodes take the events of a schedule file row by row over a
//! fabric, and the cells are taken.
#![tactic(auto)]

pub mod laws;
pub mod playback;
mod playing;
mod replaying;
pub mod taking;

pub use replaying::replay;
