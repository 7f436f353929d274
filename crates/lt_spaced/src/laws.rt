// How many events there are at most.
ghost use Rattle.lt_spaced.specs.Spaced.{EventsAreFew};

/// A list of events without an offence has at most so many, by the horizon at which it ends, the least period, the nodes, the channels
/// and the rows of inputs.
pub fn events_are_few()
    ensures { EventsAreFew }
{}
