//! What is kept of what a schedule's events are drawn as, while they come: no more than a picture of them can show.
#![tactic(auto)]

mod asked;
mod excerpt;
mod front;
mod keeping;
mod stroke;
mod tail;
mod tally;
mod tape;
mod window;

pub use asked::Asked;
pub use excerpt::Excerpt;
pub use keeping::{is_in_window, is_on_way};
pub use stroke::{Stroke, stroke_time, time_or_zero};
pub use tape::Tape;
pub use window::Window;
