// What a picture of events is made of.
ghost use Rattle.std.specs.Prelude.{◌≡◌, ◌<◌, ℕ, List, Some, length, slice_get};
ghost use Rattle.lt_diagram.specs.declared.picture.Arrow.{Arrow as OfArrow};
ghost use Rattle.lt_tape.specs.declared.asked.Asked.{Asked};
ghost use Rattle.lt_tape.specs.Tapes.{IsTapeOf};
ghost use Rattle.lt_course.specs.Strokes.{arrows_below};
ghost use Rattle.lt_course.specs.Whole.{WholeCourse};

use lt_audit::Miss;
use lt_diagram::Arrow;
use lt_tape::Tape;

/// Keeps what is drawn of the events so far.
pub trait Drawable: Drop {
    /// Which ticks are to be drawn.
    ghost asked: { Self → Asked };

    /// This is all that the events so far are drawn as.
    ghost draws: { Self → WholeCourse → Type 0 };

    /// How many channels there are.
    ghost channels: { Self → ℕ };

    /// What is in transit on a channel, as it is drawn.
    ghost transit: { Self → (channel : ℕ) → List OfArrow };

    /// What is kept of the strokes.
    fn tape(&self) -> &Tape
        ensures { (w : WholeCourse) → draws self.now w → IsTapeOf result.now (asked self.now) w.nodes w.strokes };

    /// The first execution with a message too few or too many.
    fn miss(&self) -> Option<Miss>
        ensures { (w : WholeCourse) → draws self.now w → result ≡ w.miss };

    /// How many channels there are, on which all is in transit.
    fn channel_count(&self) -> u32
        ensures value { result ≡ channels self.now }
        ensures all { (w : WholeCourse) → draws self.now w → w.pending ≡ arrows_below (transit self.now) (channels self.now) };

    /// How many messages are in transit on a channel.
    fn transit_count(&self, channel: u32) -> usize
        requires { channel < channels self.now }
        ensures { result ≡ length (transit self.now channel) };

    /// The message in transit on a channel at this place, the oldest one first.
    fn arrow_at(&self, channel: u32, place: usize) -> Arrow
        requires draws { (w : WholeCourse) × draws self.now w }
        requires channel { channel < channels self.now }
        requires place { place < length (transit self.now channel) }
        ensures { Some result ≡ slice_get (transit self.now channel) place };
}
