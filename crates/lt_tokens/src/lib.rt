//! How the text of a program is cut into tokens.
#![tactic(auto)]

mod bytes;
mod front;
mod token;
mod word;

pub use bytes::skip;
pub use front::{Front, read_front};
pub use token::{Infix, Token};
