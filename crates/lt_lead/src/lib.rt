//! What each pace of a protocol asks for: the controllers of the nodes, the shape of a layout, and how many instants are executed at least. Of
//! rounds that a node leads also their channels, their bound and their laws.
#![tactic(auto)]

mod bounds;
mod controller;
mod controllers;
pub mod laws;
mod paced;
mod shaping;

pub use bounds::lead_bound;
pub use controller::NodeController;
pub use controllers::controllers_of;
pub use paced::shape_by;
pub use shaping::lead_shape;
