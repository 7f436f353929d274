//! The texts of outputs and of their summary, and how names and clocks are written in lines.
#![tactic(auto)]

mod clocks;
mod names;
mod outputs;
mod summary;

pub use clocks::{append_clock, append_place};
pub use names::{append_function, append_name, append_variable};
pub use outputs::{append_cell, outputs_text};
pub use summary::summary_text;
