//! Names to numbers: from a syntax tree to a program.
#![tactic(auto)]

mod calls;
mod checks;
mod delays;
mod drafts;
mod expression;
mod fault;
mod function;
pub mod laws;
mod names;
mod program;
mod scope;
mod tables;
mod taking;
mod uses;

pub use fault::{NameFault, NameKind};
pub use program::{into_program, resolve};
