//! Emitted nodes over links that lose messages, tied to the architecture and to the whole program; nothing here is run.
#![tactic(auto)]

pub mod laws;
