//! What the equations of a flat function read, and which delays cross from node to node.
#![tactic(auto)]

mod crossing;
mod crossings;
mod look;
mod reads;
pub mod view;

pub use crossing::Crossing;
pub use crossings::{Crossings, in_order, readers};
pub use look::Look;
pub use reads::looked_at;
