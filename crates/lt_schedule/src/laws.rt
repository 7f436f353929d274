// What the verdict on a schedule's rows says of its list of events.
ghost use Rattle.lt_schedule.specs.Laws.{RefusedAtFirstOffence, AcceptedIsRead, AcceptedIsOfShape};

/// Where the rows read as events, all within the limits, the schedule is accepted exactly where its list has no offence,
/// and else refused with the first one.
pub fn refused_at_first_offence()
    ensures { RefusedAtFirstOffence }
{}

/// The rows of a schedule that is accepted read as its events, all within the limits.
pub fn accepted_is_read()
    ensures { AcceptedIsRead }
{}

/// Each event of a schedule that is accepted is one of the shape, in the range of times.
pub fn accepted_is_of_shape()
    ensures { AcceptedIsOfShape }
{}
