//! What the nodes and channels of a network have, and what becomes of it: an inbox and a payload for each channel, the cells of the outputs,
//! the tables of where values go, and all of it where a node wakes, reads its inboxes or runs an instant.
#![tactic(auto)]

mod bench;
mod exit;
pub mod initial;
pub mod laws;
pub mod literals;
mod payload;
pub mod room;
mod stepping;
pub mod tables;
mod track;

pub use bench::Bench;
pub use exit::Exit;
pub use lt_net_node::{Route, is_crossed, shape_of};
pub use payload::Payload;
pub use track::{Track, cells_of};
