//! Links that lose messages: the architecture in which an activation sends a message on each of its node's channels
//! again, and of the messages of a channel at most so many are lost in a row.
#![tactic(auto)]

mod event;
pub mod laws;
mod queue;
mod reading;
mod room;
mod watch;

pub use event::{LossyEvent, LossyOffence};
pub use reading::read_lossy;
pub use room::{WindowFault, window};
pub use watch::LossyWatch;
