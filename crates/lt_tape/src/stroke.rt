// What events are drawn as, and when they happened.
ghost use Rattle.std.specs.Prelude.{◌≡◌};
ghost use Rattle.lt_tape.specs.Times.{stroke_begin, stroke_time, stroke_time_at, time_or_zero};

use lt_diagram::{Arrow, Mark};

/// What an event is drawn as.
#[derive(Clone, Copy)]
pub enum Stroke {
    /// An activation.
    Point(Mark),
    /// The message that a delivery hands over.
    Line(Arrow),
    /// The end of the list, at this time, as which nothing is drawn.
    Edge(u64),
}

/// When an event happened, by what it is drawn as.
pub fn stroke_time(stroke: &Stroke) -> u64
    ensures { result ≡ stroke_time stroke.now }
{
    match stroke {
        Stroke::Point(mark) => mark.time,
        Stroke::Line(arrow) => arrow.come,
        Stroke::Edge(at) => *at,
    }
}

/// Where what it is drawn as begins.
pub(crate) fn stroke_begin(stroke: &Stroke) -> u64
    ensures { result ≡ stroke_begin stroke.now }
{
    match stroke {
        Stroke::Point(mark) => mark.time,
        Stroke::Line(arrow) => arrow.sent.min(arrow.come),
        Stroke::Edge(at) => *at,
    }
}

/// When the event at this place happened.
pub(crate) fn stroke_time_at(strokes: &[Stroke], place: usize) -> u64
    ensures { result ≡ stroke_time_at strokes.now place }
{
    if place < strokes.len() {
        stroke_time(&strokes[place])
    } else {
        0
    }
}

/// A time, or 0.
pub fn time_or_zero(time: Option<u64>) -> u64
    ensures { result ≡ time_or_zero time }
{
    match time {
        None => 0,
        Some(time) => time,
    }
}
