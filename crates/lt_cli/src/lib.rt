//! The top call: what the words ask for, done, and printed.
#![tactic(auto)]

mod commands;
mod printer;
mod process;
mod top;

pub use lt_text_answers::{Refusal, Status};
pub use printer::Printer;
pub use process::{behind_first, program};
pub use top::{finish, ltta, refuse};
