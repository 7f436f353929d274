//! The outside: files that are read, sinks that are written, and fabrics that carry messages.
//! Each object counts its faults.
#![tactic(auto)]

mod calls;
mod channel;
mod copy;
mod fabric;
mod fault;
mod files;
mod flip_channel;
mod flip_fabric;
mod history;
mod mem_fabric;
mod mem_files;
mod mem_sink;
mod message;
mod openings;
mod real;
mod repeat_files;
mod sink;
mod tight_fabric;
mod transfer;

pub use fabric::Fabric;
pub use fault::{Failed, LinkErr, SinkErr};
pub use files::Files;
pub use flip_fabric::FlipFabric;
pub use mem_fabric::MemFabric;
pub use mem_files::{MemFile, MemFiles};
pub use mem_sink::MemSink;
pub use message::Message;
pub use real::{RealFiles, RealSink};
pub use repeat_files::RepeatFiles;
pub use sink::Sink;
pub use tight_fabric::TightFabric;
pub use transfer::{Whole, read_file, write_all};
