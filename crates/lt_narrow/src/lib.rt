//! Timings with narrower periods: a part of each interval, around its middle. What keeps to them keeps to the wider ones.
#![tactic(auto)]

pub mod laws;
mod narrow;

pub use narrow::narrowed;
