//! The texts of the large input: a program that passes a value round eight nodes, its setup, its inputs for any number of instants, and
//! what they read as.
#![tactic(auto)]

pub mod laws;
mod texts;

pub use texts::{horizon, inputs, program, setup};
