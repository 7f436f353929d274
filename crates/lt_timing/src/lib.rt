//! Which timings are accepted, the least countdowns, and the cycles and bounds that a timing gives.
#![tactic(auto)]

mod acceptance;
mod bounds;
mod countdowns;
mod fault;
pub mod laws;
mod sides;

pub use acceptance::accepts;
pub use bounds::{back_pressure_bound, back_pressure_cycle, bound, cycle, instants_by};
pub use countdowns::least;
pub use fault::{TimingFault, Which};
