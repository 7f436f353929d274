//! Closed walks in a list of edges, and the strongly connected components of a table.
#![tactic(auto)]

mod circular;
mod search;
mod strong;
mod table;

pub use circular::first_circular;
pub use strong::components;
pub use table::{degrees, leads_to};
