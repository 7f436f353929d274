//! A space-time diagram as data, where each thing of it stands, and the text of its axis, marks, messages and tints.
#![tactic(auto)]

mod arrows;
mod axis;
mod chart;
mod closeness;
mod marks;
mod picture;
mod scale;
mod tints;

pub use arrows::{is_same_ink, tip, write_arrows, write_way};
pub use axis::{write_axis, write_nodes};
pub use chart::{Chart, bottom, right, x_at, y_at};
pub use closeness::style_of;
pub use marks::{Size, Style, arrow_end, write_marks};
pub use picture::{Arrow, Fate, Ink, Mark, Offence, Picture, Ring, Sign, Wrong};
pub use tints::{is_execution, write_tints};
