//! Calls replaced by copies of the called functions.
#![tactic(auto)]

mod function;
mod inline;
pub mod laws;
mod library;
mod paste;
mod program;
mod raised;

pub use program::{TooMany, expand, expand_within};
