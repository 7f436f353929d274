//! The C file of one node of a placed program: its step, its controller, its inboxes, and the functions for the engineer's transport.
#![tactic(auto)]

mod building;
pub mod laws;
mod linking;
mod part;
mod writer;

pub use building::{emit_node, node_of};
pub use writer::write_node;
