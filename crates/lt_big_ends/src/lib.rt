//! How a call of `big` ends: well, where memory is found and no call on the fabric fails. Nothing here is run.
#![tactic(auto)]

pub mod laws;
