//! The large input: a program that passes a value round eight nodes, for any number of instants, with its setup, its inputs and a
//! list of events that is drawn for it, and its run. All of it is made here, and no file is read.
#![tactic(auto)]

mod counting;
mod large;
mod playing;
mod running;

pub use running::big;
