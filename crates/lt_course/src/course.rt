// What a schedule is drawn as, as far as it goes without an offence.
use lt_audit::Miss;
use lt_base::List;
use lt_diagram::{Arrow, Wrong};
use lt_lossy::LossyOffence;
use lt_tape::Excerpt;

/// An event that is refused, with its row, the tick by which it was due or before which it was not, and where it stands out.
#[derive(Drop)]
pub struct RefusedEvent {
    pub time: u64,
    pub row: List<u8>,
    pub offence: LossyOffence,
    pub bound: Option<u64>,
    pub wrong: Wrong,
}

/// What is drawn of the events before one with an offence, what is in transit behind them, that event, and the first execution before it with
/// a message too few or too many.
#[derive(Drop)]
pub struct Stopped {
    pub excerpt: Excerpt,
    pub pending: List<Arrow>,
    pub refused: RefusedEvent,
    pub miss: Option<Miss>,
}

/// What is drawn of the events of a schedule, what is in transit behind them, the event at which it is refused, if it is, and the first
/// execution with a message too few or too many.
#[derive(Drop)]
pub struct Course {
    pub excerpt: Excerpt,
    pub pending: List<Arrow>,
    pub refused: Option<RefusedEvent>,
    pub miss: Option<Miss>,
}
