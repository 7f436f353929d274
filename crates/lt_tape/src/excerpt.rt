// What is drawn of a schedule's events.
use crate::window::Window;
use lt_base::List;
use lt_diagram::{Arrow, Mark};

/// What a picture shows of what events are drawn as.
#[derive(Drop)]
pub struct Excerpt {
    pub window: Window,
    /// How many events there are, and how many of them are drawn.
    pub count: usize,
    pub shown: usize,
    /// When the last event happened.
    pub last: u64,
    /// Each node's last execution before the window, and then the activations in it.
    pub marks: List<Mark>,
    /// The messages that were delivered and are on their way in the window.
    pub lines: List<Arrow>,
}
