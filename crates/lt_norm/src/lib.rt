//! The normal form of a function: each delay stands alone on a right side.
#![tactic(auto)]

mod equations;
mod flat;
mod kinds;
mod lift;
mod plain;
mod right;

pub use equations::{into_normal, normal};
pub use flat::Flat;
