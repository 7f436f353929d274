// What recorders of events have in common, whatever their events are.
ghost use Rattle.std.specs.Prelude.{◌≡◌, ℕ, List, is_some};
ghost use Rattle.lt_course.specs.Whole.{WholeCourse};

use crate::course::Stopped;
use crate::drawable::Drawable;
use lt_schedule::Replica;

/// Takes the events of a schedule one after another, and keeps what is drawn of those that it has taken. An event with an offence is told with what is
/// drawn of the list.
pub trait Recording: Replica<(), Offence = Stopped> + Drawable {
    /// All that events are drawn as.
    ghost whole: { Self → List Self.Event → WholeCourse };

    /// Whether the end was taken.
    fn is_ended(&self) -> bool
        ensures { (outside : Unit {0}) (steps : ℕ) (es : List Self.Event) → Self.stands self.now outside steps es
            → result ≡ is_some (whole self.now es).horizon };

    /// It acts on nothing outside that could fail.
    ghost calm: { (outside : Unit {0}) → Self.faults outside ≡ 0 };

    ghost draws_whole: { (a : Self) (outside : Unit {0}) (steps : ℕ) (es : List Self.Event) → Self.stands a outside steps es → Self.draws a (whole a es) };

    ghost keeps_asked: { (a : Self) (v : Unit {0}) (b : Self) (w : Unit {0}) → Self.keeps a v b w → Self.asked b ≡ Self.asked a };

    ghost keeps_whole: { (a : Self) (v : Unit {0}) (b : Self) (w : Unit {0}) → Self.keeps a v b w → whole b ≡ whole a };
}
