// Events over links that lose messages, and why one is refused.
use lt_arch::{Event, Offence};

/// One atomic step, with its time in ticks last.
#[derive(Clone, Copy, Debug, PartialEq, Eq)]
pub enum LossyEvent {
    /// An activation, a delivery or the end.
    Plain(Event),
    /// The channel of this number loses its oldest message.
    Lose(u32, u64),
}

/// Why an event is refused.
#[derive(Clone, Copy, Debug, PartialEq, Eq)]
pub enum LossyOffence {
    /// What an event over links without losses may break too.
    Common(Offence),
    /// As many messages as are allowed were lost on the channel of this number since it delivered one.
    TooManyLost(u32),
}
