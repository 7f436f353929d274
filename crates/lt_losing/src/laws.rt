// What holds of each list that is drawn where links lose messages.
ghost use Rattle.lt_losing.specs.Laws.{LosesAllEvents, LosesSound, LosesReadBack, LosesNothing, LosesFew, LossyStaysAdmissible, LosesShown};
ghost use Rattle.lt_losing.specs.LossyNumbers.{LosesNumbers};

/// The bound on the number of events in the definition cuts nothing off.
pub fn never_cut()
    ensures { LosesAllEvents }
{}

/// Each drawn list is admissible, and ends at its horizon.
pub fn admissible()
    ensures { LosesSound }
{}

/// The file of a drawn list that is not too long is accepted, and its events are the list.
pub fn reads_back()
    ensures { LosesReadBack }
{}

/// At rate 0 nothing is lost.
pub fn nothing_is_lost()
    ensures { LosesNothing }
{}

/// No channel loses more messages in a row than are allowed.
pub fn few_are_lost()
    ensures { LosesFew }
{}

/// A list of events that is admissible within narrower bounds is so within the wider ones.
pub fn stays_admissible()
    ensures { LossyStaysAdmissible }
{}

/// A list that is drawn within narrower bounds, and is not too long, is admissible within the wider ones, ends at its horizon, and its file reads back to it.
pub fn shown_within()
    ensures { LosesShown }
{}

/// The first activations of a drawn list and the gaps between activations are the numbers that are drawn, and of the messages that arrive those are lost of
/// which the words say so, where one more may be lost: in this order, the first activations; then for each activation the gap to the next one and the delays
/// of what it sends, and for each arrival whether it is lost.
pub fn numbers()
    ensures { LosesNumbers }
{}
