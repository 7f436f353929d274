//! The variables of a node's C file and the bodies of its functions: how it starts, what it does when it is activated, and what its links take from it and
//! give to it.
#![tactic(auto)]

mod acting;
mod code;
mod equations;
mod keeping;
mod starting;
mod statements;
mod stepping;
mod transport;

pub use acting::{activate, activation, file_calls};
pub use keeping::variables;
pub use starting::init;
pub use stepping::execute;
pub use transport::transport_functions;
