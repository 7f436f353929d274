//! The program and the setup of the large input pass every check. Nothing here is run.
#![tactic(auto)]

pub mod laws;
