//! A schedule over links that lose messages, event by event: whether it is within the bounds, what each node did, and what is in transit on each
//! channel.
#![tactic(auto)]

mod audit;
mod auditor;
mod hearing;
mod letter;
mod link;
mod seen;
mod sending;

pub use auditor::LossyAuditor;
