//! The texts of plans, and the printed lines of refused programs, files and schedules.
#![tactic(auto)]

mod config;
mod inputs;
mod located;
mod observer;
mod plan;
mod program;
mod schedule;
mod timing;
mod words;

pub use config::append_config;
pub use inputs::append_inputs;
pub use lt_text_values::{outputs_text, summary_text};
pub use observer::append_observer;
pub use plan::plan_text;
pub use program::program_line;
pub use schedule::{append_channel, append_lossy, append_node_name, append_offence, append_row};
pub use timing::{append_timing, append_window};
