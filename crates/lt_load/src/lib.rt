//! What a command reads before it answers: a program through all checks, a setup that fits it, and rows of inputs; and, for a run,
//! the program on its nodes with the channels between them.
#![tactic(auto)]

mod loaded;
mod loading;
mod pacing;
mod planning;
mod raised;
mod setups;

pub use loaded::Loaded;
pub use loading::{fetch_within, load_config, load_flat, load_inputs, load_program, load_text};
pub use lt_compile::layout_of;
pub use lt_load_fit::{CommandFault, What, main_of};
pub use pacing::{load_plain, load_plain_config};
pub use planning::load;
pub use setups::check_with;
