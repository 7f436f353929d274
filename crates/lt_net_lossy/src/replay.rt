// A net along a schedule file: it takes the events row by row over a fabric, and the cells of its outputs are taken.

mod feeding;
mod playback;
mod playing;
mod reading;
mod replaying;
mod taking;

pub use replaying::replay_lossy;
