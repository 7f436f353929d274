//! The meaning of a program on inputs: the streams of its outputs, by one machine of its flat form.
#![tactic(auto)]

mod columns;
mod commands;
mod evaluating;
mod outputs;
mod streaming;

pub use commands::{meaning, outputs_of};
pub use evaluating::limit_cells;
pub use outputs::{Outputs, output_names};
