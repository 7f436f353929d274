//! Observers in past-time logic over the outputs of a program: their text, when they hold, and a monitor that follows them.
#![tactic(auto)]

mod fault;
mod formula;
mod monitor;
mod names;
mod observer;
mod parser;
mod reading;
mod tokens;
mod words;

pub use fault::{ObserverFault, ObserverKind};
pub use formula::Obs;
pub use monitor::{Monitor, Part};
pub use observer::{Observer, read_observer};
