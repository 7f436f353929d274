//! The setup file: which protocol, which bounds of time, which nodes.
#![tactic(auto)]

mod config;
mod fault;
mod judge;
mod keys;
mod leading;
mod limits;
mod names;
mod nodes;
mod numbers;
mod plain;
mod reading;
mod timing;
mod values;

pub use config::Config;
pub use fault::{ConfigFault, ConfigKind};
pub use limits::{MOST_LOSSES, MOST_NODES};
pub use lt_arch::Pace;
pub use reading::read_config;
