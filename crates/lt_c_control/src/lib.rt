//! The controllers of a node as C: statements that do, at an activation, what the table of deeds says; what the inboxes begin with, and that
//! what comes is put into them.
#![tactic(auto)]

mod controlling;
mod inboxes;
pub mod laws;
mod lossy;
mod posts;
mod statements;
mod unread;

pub use controlling::{counting, pressure};
pub use inboxes::{acknowledging, delivering, starting_ack, starting_inbox, starting_phase};
pub use lossy::losing;
pub use posts::Post;
