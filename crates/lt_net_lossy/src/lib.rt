//! The network over links that lose messages: nodes that send their newest messages again at each activation, and take the events
//! of a schedule file row by row.
#![tactic(auto)]

mod bench;
mod ending;
mod fault;
pub mod laws;
mod net;
mod posted;
mod posting;
mod receiving;
mod replay;
mod sending;
mod starting;

pub use fault::LossyFault;
pub use net::LossyNet;
pub use replay::replay_lossy;
