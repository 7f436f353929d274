//! What a net starts with and is fed: its layout, shape and timing, a fabric with its channels, and rows of inputs.
#![tactic(auto)]

mod fault;
mod feeding;
mod opening;
mod plan;

pub use fault::link_fault;
pub use feeding::{read_next, read_row, room_for, row_if};
pub use opening::open;
pub use plan::{NetPlan, copies};
