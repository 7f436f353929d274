//! A schedule as a space-time diagram: what its events are drawn as, up to its first offence, becomes one SVG.
#![tactic(auto)]

mod drawing;
mod keeping;
mod picturing;
mod titles;
mod view;

pub use drawing::draw;
pub use view::DrawView;
