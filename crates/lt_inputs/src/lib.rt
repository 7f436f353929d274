//! The inputs file: a CSV table with a row for each instant and a column for each input.
#![tactic(auto)]

mod fault;
mod inputs;
mod records;
mod rows;
mod values;

pub use fault::{InputFault, InputKind};
pub use inputs::read_inputs;
