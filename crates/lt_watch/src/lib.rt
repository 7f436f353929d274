//! Runs that an observer watches: what an observer in past-time logic makes of the cells of the outputs.
#![tactic(auto)]

mod fault;
mod judging;
mod observing;
mod watched;
mod watching;

pub use fault::WatchFault;
pub use judging::judge;
pub use observing::{load_observer, load_run};
pub use watched::Watched;
pub use watching::{run_outputs, watch};
