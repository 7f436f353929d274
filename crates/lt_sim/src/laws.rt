// What holds of each drawn list.
ghost use Rattle.lt_sim.specs.Laws.{IsNeverCut, DrawsSound, ReadsBack};
ghost use Rattle.lt_sim.specs.Numbers.{DrawsNumbers};

/// The bound on the number of events in the definition cuts nothing off.
pub fn never_cut()
    ensures { IsNeverCut }
{}

/// Where no list of events puts two messages on one channel, which the protocols' laws say, each drawn list is admissible,
/// and ends at its horizon.
pub fn admissible()
    ensures { DrawsSound }
{}

/// The file of a drawn list that is not too long is accepted, and its events are the list.
pub fn reads_back()
    ensures { ReadsBack }
{}

/// The first activations of a drawn list, the gaps between activations and the delays of messages are the numbers that are
/// drawn, in this order: the first activations, and then for each activation the gap to the next one and the delays of what it
/// sends.
pub fn numbers()
    ensures { DrawsNumbers }
{}
