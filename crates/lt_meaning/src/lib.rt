//! The plain evaluator: a program's streams on a table of inputs, as a table of cells.
#![tactic(auto)]

mod expressions;
mod lifter;
mod node;
mod plan;
mod planning;
mod program;
mod showing;
mod starting;
mod state;
mod table;

pub use program::{StreamsFault, output_streams, streams};
pub use table::Table;
