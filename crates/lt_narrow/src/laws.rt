// What holds of timings whose bounds are within those of another.
ghost use Rattle.lt_narrow.specs.Laws.{NarrowsWithin, ReachesSame, StaysAdmissible, StaysOnePlace};

/// Narrower periods are within the wider ones.
pub fn narrows_within()
    ensures { NarrowsWithin }
{}

/// Under a timing whose bounds are within those of another the same events lead to the same state.
pub fn reaches_same()
    ensures { ReachesSame }
{}

/// A list of events that is admissible within narrower bounds is so within the wider ones.
pub fn stays_admissible()
    ensures { StaysAdmissible }
{}

/// Where one place in each channel is enough, it is so within narrower bounds.
pub fn stays_one_place()
    ensures { StaysOnePlace }
{}
