//! The concrete syntax: from text to tree.
#![tactic(auto)]

mod copying;
mod expression;
mod fault;
mod frame;
mod header;
pub mod laws;
mod program;
mod read;
mod section;
mod stack;
mod term;
mod tree;

pub use fault::{SyntaxFault, SyntaxKind};
pub use program::{Tree, parse};
pub use stack::{left, level, right};
pub use term::Term;
pub use tree::{DeclText, EqText, NodeText};
