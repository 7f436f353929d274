//! The outputs of a program over instants as one SVG: what is drawn, and the text.
#![tactic(auto)]

mod area;
mod axis;
mod failure;
mod frame;
mod head;
pub mod laws;
mod legend;
mod line;
mod marks;
mod plot;
mod row;
mod writer;

pub use frame::window_room;
pub use plot::{Plot, Row};
pub use writer::write_plot;
