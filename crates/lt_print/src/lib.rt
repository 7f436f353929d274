//! The canonical text of a program's tree.
#![tactic(auto)]

pub mod laws;
mod printer;

pub use printer::print;
