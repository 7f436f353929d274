//! A space-time diagram as one SVG: its head, its legend and what stands out in red, round what `lt_diagram` has of it.
#![tactic(auto)]

mod head;
mod legend;
mod red;
mod sizes;
mod writer;

pub use legend::Entry;
pub use writer::write_picture;
