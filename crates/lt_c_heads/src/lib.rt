//! What the C file of a node is made from, as plain data, and what it begins with: its types, the heads of its functions, and its interface, which is also
//! the node's header.
#![tactic(auto)]

mod file;
mod heads;
pub mod interface;
mod types;
pub mod words;

pub use file::{Carried, Correspondence, NodeFile, PartCode, Peer, Regime};
pub use heads::{
    acknowledge_head, activate_head, answer_head, deliver_head, init_head, message_head,
};
