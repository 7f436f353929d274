//! A node of a placed program as C: the program and its setup read from their files, the node found by its name, and the file of its C.
#![tactic(auto)]

mod emitting;
mod fault;
pub mod laws;
mod loading;
mod naming;

pub use emitting::emit;
pub use fault::EmitFault;
pub use loading::load_site;
