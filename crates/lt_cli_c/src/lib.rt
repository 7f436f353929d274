//! The top call of the second program: what its words ask for, done, and printed.
#![tactic(auto)]

mod commands;
mod process;
mod top;

pub use lt_text_answers::{Refusal, Status};
pub use process::lttac_program;
pub use top::lttac;
