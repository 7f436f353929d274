// What holds of what is drawn where links lose messages.
ghost use Rattle.lt_lossy_course.specs.LossyLaws.{DrawsAsLossyJudged, HasLossyStrokeEach};

/// Each event has one stroke, in order.
pub fn stroke_each()
    ensures { HasLossyStrokeEach }
{}

/// A schedule is drawn up to the same first offence as a run judges.
pub fn draws_as_judged()
    ensures { DrawsAsLossyJudged }
{}
