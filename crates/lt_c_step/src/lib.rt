//! Step code as C: which statements stand for it, that they show the streams of the function that it was made of, and their text.
#![tactic(auto)]

mod clock_trees;
pub mod laws;
mod sources;
mod uses;
mod writing;

pub use clock_trees::clock_expression;
pub use sources::{Output, Source};
pub use uses::{keeps_calls, lets_calls, operand_calls};
pub use writing::{condition, conditions, expression, firsts, keep, keeps, lets, statement_of_let};
