//! Which node each variable of a program is on, and what each node runs.
#![tactic(auto)]

mod assign;
mod fault;
mod judge;
pub mod laws;
mod layout;
mod marks;
mod members;
mod own;
mod part;
mod placing;
mod seats;
mod spread;

pub use fault::PlaceFault;
pub use layout::{Feed, Layout, Part};
pub use lt_arch::{NamedNode, NamedNodes, Placement};
pub use lt_place_reads::Crossing;
pub use placing::{legal_nodes, place};
