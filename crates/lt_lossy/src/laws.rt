// The laws of back-pressure over links that lose messages, over lists of events.
ghost use Rattle.std.specs.Prelude.{ℕ, List};
ghost use Rattle.lt_arch.specs.declared.shape.Shape.{Shape};
ghost use Rattle.lt_arch.specs.declared.timing.Timing.{Timing};
ghost use Rattle.lt_lossy.specs.declared.event.LossyEvent.{LossyEvent};
ghost use Rattle.lt_lossy.specs.State.{LossyState};
ghost use Rattle.lt_lossy.specs.Times.{LossyTimes, WhereverHasTimes, FollowsLossyEvents};
ghost use Rattle.lt_lossy.specs.Schedule.{IsFirstLossyOffence, IsLossyAdmissible, HasOnlyLossyEnd, first_lossy_offence};
ghost use Rattle.lt_lossy.specs.Laws.{IsLossJudged, KeepsOrder, KeepsOneAhead, ReadsItsNumber, KeepsRoom, ReachesLossyBound};

/// The first offence of a list is that of the first event that has one, or a missing end one past the last event.
pub fn first_of_list()
    ensures { (s : Shape) (t : Timing) (limit rows : ℕ) (es : List LossyEvent) → IsFirstLossyOffence s t limit rows es (first_lossy_offence s t limit rows es) }
{}

/// An admissible list ends with its only end.
pub fn only_end()
    ensures { (s : Shape) (t : Timing) (limit rows : ℕ) (es : List LossyEvent) → IsLossyAdmissible s t limit rows es → HasOnlyLossyEnd s t rows es }
{}

/// A loss is judged in this order: after the end, backwards, overdue, nothing sent, too many lost.
pub fn loss_in_order()
    ensures { (s : Shape) (t : Timing) (limit : ℕ) (st : LossyState) (c at : ℕ) → IsLossJudged s t limit st c at }
{}

/// What a watch records of an event without an offence leaves the times of the next state.
pub fn times_follow()
    ensures { (w : LossyTimes) (rows : ℕ) → WhereverHasTimes w (λ s t allowed st. FollowsLossyEvents w s t allowed rows st) }
{}

/// The numbers in transit on a channel go up, from the newest that was delivered to what the sender counts, and no
/// more messages are lost in a row than are allowed.
pub fn order()
    ensures { KeepsOrder }
{}

/// Over a back-pressure shape a sender counts at most one more than was delivered, and each channel has delivered what a
/// freshness bit tells of it.
pub fn one_ahead()
    ensures { KeepsOneAhead }
{}

/// A node that executes instant k has message k as the newest on each data channel to it, and one that sends message
/// k has the acknowledgement of k executed instants on each acknowledgement channel to it.
pub fn own_number()
    ensures { ReadsItsNumber }
{}

/// Where a timing has the window, at most 64 messages of a channel are in transit.
pub fn room_for_all()
    ensures { KeepsRoom }
{}

/// Where an admissible list ends, each node has executed at least the smaller of its bound and the number of input rows.
pub fn least_length()
    ensures { ReachesLossyBound }
{}
