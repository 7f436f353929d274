//! That emitted files are the code whose runs show a program's streams; nothing of it is run.
#![tactic(auto)]

pub mod laws;
