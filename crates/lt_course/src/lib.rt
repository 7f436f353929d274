//! What is drawn of the events of a schedule, up to its first offence: it is replayed with any number of messages in transit.
#![tactic(auto)]

mod course;
mod drawable;
mod drawn;
mod file;
pub mod laws;
mod reading;
mod recorder;
mod recording;
mod refusing;
mod replaying;
mod sketch;

pub use course::{Course, RefusedEvent, Stopped};
pub use drawable::Drawable;
pub use drawn::stopped_before;
pub use file::read_course;
pub use recording::Recording;
pub use refusing::{last_mark_for, offence_bound, without_last, wrong_by};
pub use replaying::replay_course;
pub use sketch::{chan_at, ink_by, number_behind, sign_of};
