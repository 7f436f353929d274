//! The types and the clocks of a program, and how large it is.
#![tactic(auto)]

mod clocking;
mod fitting;
mod innermost;
mod readers;
mod rules;
mod sizing;
mod typing;

pub use clocking::{ClockFault, clocks};
pub use fitting::types_and_clocks;
pub use sizing::{calls_of, sizes};
pub use typing::{TypeFault, types};
