//! A schedule over a shape with any number of messages in transit on a channel: whether it is within the bounds, the first event at
//! which a node executes with a message too few or too many, and which of its events are selected.
#![tactic(auto)]

mod audit;
mod auditor;
mod fault;
mod hearing;
mod line;
mod member;
mod miss;
mod missing;
mod selection;
mod sending;
mod tap;

pub use auditor::Auditor;
pub use fault::AuditFault;
pub use miss::Miss;
pub use selection::Selection;
pub use tap::Tap;
