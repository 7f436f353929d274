//! What the top call answers with: the texts of what commands give, and refusals with their statuses and lines.
#![tactic(auto)]

mod judgement;
mod place_line;
mod refusal;
mod replies;
mod status;

pub use refusal::Refusal;
pub use replies::{
    audit_text, big_text, check_text, command_text, observed_text, outputs_text, plan_text,
    setup_check_text, trace_text, watch_text,
};
pub use status::Status;
