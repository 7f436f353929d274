//! The words of the command line, as `clap` reads them: those of `ltta` and those of `lttac`.
#![tactic(auto)]

mod arguments;
mod command;
mod commands;
mod lttac;
mod lttac_reading;
mod numbers;
mod reading;

pub use command::Command;
pub use lttac::LttacCommand;
pub use lttac_reading::read_lttac_words;
pub use reading::read_words;
