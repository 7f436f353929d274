//! What holds of what is drawn; nothing here is run.
ghost use Rattle.lt_course.specs.Laws.{DrawsAsJudged, HasStrokeEach, TellsFirstMiss};

/// What is drawn has one entry for each event, in order.
pub fn stroke_each()
    ensures { HasStrokeEach }
{}

/// The events that are drawn are those that a run takes, up to the same first offence; and rows are refused as there.
pub fn draws_as_judged()
    ensures { DrawsAsJudged }
{}

/// The miss of a course is the first of its events, also before an offence.
pub fn tells_first_miss()
    ensures { TellsFirstMiss }
{}
