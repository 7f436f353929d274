//! A run of a loaded program along a schedule, and what it shows.
#![tactic(auto)]

mod coded;
mod drawn;
mod fault;
mod printed;
mod replaying;
mod running;

pub use coded::{replay_code, replay_whole};
pub use drawn::run_drawn;
pub use fault::RunFault;
pub use printed::Printed;
pub use replaying::replay;
pub use running::{run, run_loaded};
