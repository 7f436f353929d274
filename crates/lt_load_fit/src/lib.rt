//! Whether a setup fits a program: its placement is legal, its timing is accepted, and it has its window; and why a command is refused.
#![tactic(auto)]

mod fault;
mod fits;
mod placing;
mod rows;
mod running;

pub use fault::{CommandFault, What};
pub use fits::{accept_setup, accept_window, fitting, place_setup};
pub use placing::as_place;
pub use rows::too_many_events;
pub use running::main_of;
