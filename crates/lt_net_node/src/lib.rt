//! What a node does with its channels and its machine: which inboxes are fresh, what its controller answers, and the step of its machine on
//! what its part is fed with. Also the channels of a layout.
#![tactic(auto)]

pub mod freshness;
mod route;
mod shaping;
pub mod stepping;
mod waking;

pub use route::Route;
pub use shaping::{is_crossed, shape_of};
pub use waking::wake;
