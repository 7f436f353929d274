//! Audits and traces: schedules over setups whose timing need not be accepted, with any number of messages in transit. Nothing is
//! run: no node has a machine here.
#![tactic(auto)]

mod audited;
mod auditing;
mod grounding;
mod inspecting;
mod inspection;
pub mod laws;
mod loading;
mod scene;
mod selecting;
mod setups;
mod stage;
mod tracing;

pub use audited::Audited;
pub use auditing::audit;
pub use loading::load_stage;
pub use setups::Setups;
pub use stage::{Ground, Stage};
pub use tracing::trace;
