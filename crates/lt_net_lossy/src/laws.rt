// What every event without an offence keeps of a net over links that lose messages.
ghost use Rattle.lt_net_lossy.specs.Laws.{EventsKeep, EventsKeepOwn, LossyCellsAreFronts, LossyCellsAreLocal};

use lt_arch::Controller;
use lt_machine::Machine;

/// Where a net stands for some lists, and the fabric has in transit what their state says, both are so of the lists with the
/// entries of an event more.
pub fn events_keep<C: Controller, M: Machine>()
    ensures { EventsKeep C.Controller M.Machine }
{}

/// Where new payloads come as they were sent, the payloads that were delivered stay their senders' own.
pub fn events_keep_own<C: Controller, M: Machine>()
    ensures { EventsKeepOwn C.Controller M.Machine }
{}

/// Over payloads that are their senders' own the cells of an output are a front of its stream in the whole program, as many as
/// its node has executed instants.
pub fn cells_are_fronts<C: Controller, M: Machine>()
    ensures { LossyCellsAreFronts C.Controller M.Machine }
{}

/// Over any payloads the cells of an output are those that its node's part gives out on the literals and then on the payloads of
/// the messages, of each the copy that was delivered last before the node ran on it.
pub fn cells_are_local<C: Controller, M: Machine>()
    ensures { LossyCellsAreLocal C.Controller M.Machine }
{}
