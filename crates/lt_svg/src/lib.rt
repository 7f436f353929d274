//! Pieces of SVG text that pictures share: templates with numbers, names of files, and names that stand between tags.
#![tactic(auto)]

pub mod laws;
mod paths;
mod template;

pub use paths::base_name;
pub use template::{enclosed, escape, fill};
