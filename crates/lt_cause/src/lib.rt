//! The causality of a function.
#![tactic(auto)]

mod causality;
mod circling;
mod dependence;
mod sorting;

pub use causality::{Cycle, Order, causal, order_of};
