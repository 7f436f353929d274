//! What the store of an emitted node keeps of its node; nothing here is run.
ghost use Rattle.lt_c_net.specs.Laws.{StartsStand, DeliveriesKeep, PressingKeeps, CountingKeeps, BitsAgree};
ghost use Rattle.lt_c_net.specs.Lists.{DeliveriesFollow, PressingFollows, CountingFollows};
ghost use Rattle.lt_c_net.specs.Kept.{OthersStay, ShapesServe, PhasesStay};
ghost use Rattle.lt_c_net.specs.Nets.{PressingNet, CountingNet, DeliveryNet};
ghost use Rattle.lt_c_net.specs.Answers.{DeedsAgree, BitsInNet};
ghost use Rattle.lt_c_net.specs.Turns.{MessagesInTurn};
ghost use Rattle.lt_c_net.specs.Shows.{ValuesAgree, OutputsAgree};
ghost use Rattle.lt_c_net.specs.WholeRuns.{EmittedRunIsWhole};
ghost use Rattle.lt_c_net.specs.Told.{PacketsAgree, PressingTells, CountingTells};

use lt_arch::Controller;
use lt_machine::Machine;

/// What init leaves stands for a node before the first event.
pub fn starts_stand<C: Controller, M: Machine>()
    ensures { StartsStand C.Controller M.Machine }
{}

/// A delivery keeps each node's store standing.
pub fn deliveries_keep<C: Controller, M: Machine>()
    ensures { DeliveriesKeep C.Controller M.Machine }
{}

/// Under back-pressure an activation keeps the store of its node standing, and says what was done.
pub fn pressing_keeps<C: Controller, M: Machine>()
    ensures { PressingKeeps C.Controller M.Machine }
{}

/// Under the time-based protocol too.
pub fn counting_keeps<C: Controller, M: Machine>()
    ensures { CountingKeeps C.Controller M.Machine }
{}

/// The bits that it hands out are those of the net's messages.
pub fn bits_agree<C: Controller, M: Machine>()
    ensures { BitsAgree C.Controller M.Machine }
{}

/// Over a delivery the store follows the lists of payloads.
pub fn deliveries_follow<C: Controller, M: Machine>()
    ensures { DeliveriesFollow C.Controller M.Machine }
{}

/// Over an activation under back-pressure it follows the lists of rows.
pub fn pressing_follows<C: Controller, M: Machine>()
    ensures { PressingFollows C.Controller M.Machine }
{}

/// So it does under the time-based protocol.
pub fn counting_follows<C: Controller, M: Machine>()
    ensures { CountingFollows C.Controller M.Machine }
{}

/// The values that it hands out are those of the net's messages.
pub fn values_agree<C: Controller, M: Machine>()
    ensures { ValuesAgree C.Controller M.Machine }
{}

/// What outputs show where an instant is executed is the next cell of their streams.
pub fn outputs_agree<C: Controller, M: Machine>()
    ensures { OutputsAgree C.Controller M.Machine }
{}

/// An activation keeps the stores of all other nodes standing.
pub fn others_stay<C: Controller, M: Machine>()
    ensures { OthersStay C.Controller M.Machine }
{}

/// The nodes that a file names are those from which channels come, and from each comes one of a kind.
pub fn shapes_serve()
    ensures { ShapesServe }
{}

/// The phases of a protocol lead to each other.
pub fn phases_stay()
    ensures { PhasesStay }
{}

/// A channel has delivered all messages but the one that an activation sends on it.
pub fn messages_in_turn()
    ensures { MessagesInTurn }
{}

/// Under back-pressure an activation of a node of a net keeps the stores of all nodes where the net's lists lead.
pub fn pressing_net<C: Controller, M: Machine>()
    ensures { PressingNet C.Controller M.Machine }
{}

/// So it does under the time-based protocol.
pub fn counting_net<C: Controller, M: Machine>()
    ensures { CountingNet C.Controller M.Machine }
{}

/// And so does a delivery.
pub fn delivery_net<C: Controller, M: Machine>()
    ensures { DeliveryNet C.Controller M.Machine }
{}

/// The deed that a controller answers by the bits of its inboxes is the one of the architecture.
pub fn deeds_agree<C: Controller, M: Machine>()
    ensures { DeedsAgree C.Controller M.Machine }
{}

/// After an activation of a node of a net the bits that it hands out are those of the net's messages.
pub fn bits_in_net<C: Controller, M: Machine>()
    ensures { BitsInNet C.Controller M.Machine }
{}

/// The packets that it makes are the messages of the net, with their bits and their values.
pub fn packets_agree<C: Controller, M: Machine>()
    ensures { PacketsAgree C.Controller M.Machine }
{}

/// Where an activation executes an instant under back-pressure, the node tells of each output the next cell of its stream.
pub fn pressing_tells<C: Controller, M: Machine>()
    ensures { PressingTells C.Controller M.Machine }
{}

/// So it does under the time-based protocol.
pub fn counting_tells<C: Controller, M: Machine>()
    ensures { CountingTells C.Controller M.Machine }
{}

/// Whatever their memory held before, nodes that run their emitted code over links that lose nothing show, of each output, the beginning of its
/// stream in the whole program, as far as the protocol's bound while inputs last.
pub fn emitted_run_is_whole()
    ensures { EmittedRunIsWhole }
{
    lt_net_replay::laws::networks_are_sound();
}
