// A net over links that lose messages, as it takes the events of a schedule.
ghost use Rattle.std.specs.Prelude.{◌≡◌, ◌≢◌, ◌<◌, ◌-◌, IsTrue, [], List as Items, length, IfOk};
ghost use Rattle.lt_schedule.specs.Taken.{IsMemoryStop, StopCounted};
ghost use Rattle.lt_lossy.specs.declared.event.LossyEvent.{LossyEvent as OfEvent};
ghost use Rattle.lt_base.specs.Behaviour.{RowsFit};
ghost use Rattle.lt_io.specs.Counts.{MayFail, LinkCounted};
ghost use Rattle.lt_io.specs.FabricState.{KeepsPromises, OpensOnce};
ghost use Rattle.lt_norm.specs.Flat.{Originated};
ghost use Rattle.lt_step.specs.Run.{HasRowValues};
ghost use Rattle.lt_place.specs.Layout.{IsPlaced};
ghost use Rattle.lt_net_bench.specs.Starts.{AreReady};
ghost use Rattle.lt_net_lossy.specs.Starts.{IsMadeOfLossy};
ghost use Rattle.lt_net.specs.declared.fault.First.{First};
ghost use Rattle.lt_net_lossy.specs.declared.fault.LossyFault.TheVariants.{Stopped};
ghost use Rattle.lt_net_lossy.specs.Rules.{lossy_rules_of, IsLossyStopOf};
ghost use Rattle.lt_net_lossy.specs.LossySound.{IsLossySound};
ghost use Rattle.lt_net_start.specs.Ends.{LeavesNet};
ghost use Rattle.lt_net_lossy.specs.LossyPlaying.{lossy_rules_for, StandsForLossy, TakesLineLossy, KeepsLossyPlayback};
ghost use Rattle.lt_net_lossy.specs.LossyKeeping.{long_lossy_line, lossy_keeps_itself, lossy_keeps_on};

use crate::replay::feeding::read_next;
use crate::replay::reading::read_row;
use crate::{LossyFault, LossyNet};
use lt_arch::{Controller, Offence, Shape, Timing};
use lt_base::{Inputs, Memory, Steps, Value};
use lt_bp::BackPressure;
use lt_io::{Fabric, LinkErr};
use lt_lossy::{LossyEvent, LossyOffence};
use lt_machine::Machine;
use lt_net_start::{open, row_if};
use lt_place::Layout;
use lt_rows::PlaceTable;
use lt_schedule::{Replica, Stop};
use std::alloc::Global;
use std::sync::ledger::Ledger;

/// A net beside its inputs, with room for one row of them.
#[derive(Drop)]
pub(crate) struct LossyPlayback<'a, M: Machine> {
    pub net: LossyNet<M>,
    pub inputs: &'a Inputs,
    places: PlaceTable,
    width: u32,
    row: Vec<Value>,
}

impl<'a, M: Machine> LossyPlayback<'a, M> {
    /// A net before its first event, with so many inputs of `main`, where so many losses in a row are allowed. The fabric, which has
    /// no channels yet, is opened with the net's; an error of its leaves it as it was.
    pub(crate) fn start<W: Fabric>(
        alloc: Global,
        layout: Layout,
        shape: Shape,
        timing: Timing,
        losses: u64,
        inputs: &'a Inputs,
        width: u32,
        machines: Vec<M>,
        fabric: &mut W,
    ) -> Result<LossyPlayback<'a, M>, LinkErr>
        requires placed { (f : Originated) × IsPlaced f layout × RowsFit f.func inputs.now.rows }
        requires sound { IsLossySound layout shape timing }
        requires width { inputs.now.width ≡ width }
        requires wide { HasRowValues width inputs.now.rows }
        requires machines { AreReady M.Machine layout (length inputs.now.rows) machines.items }
        requires count { MayFail (W.state fabric.old).faults }
        requires empty { (W.state fabric.old).kinds ≡ [] }
        ensures inputs { IfOk result (λ playback. playback.inputs.now ≡ inputs.now) }
        ensures made { IfOk result (λ playback. IsMadeOfLossy layout shape timing losses (length inputs.now.rows) machines.items playback.net.bench) }
        ensures ready { IfOk result (λ playback. StandsForLossy ⟦<BackPressure as Controller>⟧ M.Machine playback (W.state fabric.new) []) }
        ensures opens { OpensOnce (W.state fabric.old) (W.state fabric.new) result }
        ensures cause { LinkCounted (W.state fabric.old).faults (W.state fabric.new).faults result }
        ensures keeps { KeepsPromises (W.state fabric.old) (W.state fabric.new) }
        ensures sound { IsTrue (W.state fabric.old).sound → (W.state fabric.new).faults ≡ (W.state fabric.old).faults }
    {
        match open(alloc, &layout, &shape, width, fabric) {
            Ok((places, row)) => {
                let count = inputs.rows();
                match LossyNet::start(alloc, layout, shape, timing, losses, count, machines) {
                    Ok(net) => {
                        net.invariant_holds();
                        Ok(LossyPlayback {
                            net,
                            inputs,
                            places,
                            width,
                            row,
                        })
                    }
                    Err(Memory) => {
                        drop(places);
                        drop(row);
                        Err(LinkErr::Memory)
                    }
                }
            }
            Err(e) => {
                drop(layout);
                drop(shape);
                drop(timing);
                drop(machines);
                Err(e)
            }
        }
    }
}

impl<M: Machine, W: Fabric> Replica<W> for LossyPlayback<'_, M> {
    type Event = LossyEvent;

    type Offence = LossyOffence;

    ghost rules = { λ a. lossy_rules_for a };

    ghost stands = { λ a w steps before. StandsForLossy ⟦<BackPressure as Controller>⟧ M.Machine a (W.state w) before };

    ghost keeps = { λ a v b w. KeepsLossyPlayback a b (W.state v) (W.state w) };

    ghost faults = { λ w. (W.state w).faults };

    // a message that is sent behind others may want memory
    ghost prompt = { λ w. ⊥ };

    fn take_line<L: Ledger>(
        &mut self,
        line: &[u8],
        outside: &mut W,
        steps: &mut Steps<L>,
    ) -> Result<(), Stop<LossyOffence>>
        requires count { MayFail (W.state outside.old).faults }
        requires stands { (before : Items OfEvent) × StandsForLossy ⟦<BackPressure as Controller>⟧ M.Machine self.old (W.state outside.old) before }
        ensures cause { StopCounted (W.state outside.old).faults (W.state outside.new).faults result }
        ensures prompt { ⊥ → ¬ IsMemoryStop result }
        ensures keeps { KeepsLossyPlayback self.old self.new (W.state outside.old) (W.state outside.new) }
        ensures takes { TakesLineLossy ⟦<BackPressure as Controller>⟧ M.Machine self.old self.new line.now (W.state outside.old) (W.state outside.new) result }

        // A line that is refused leaves the net as it was; a failed call or want of memory has stopped it.
        ensures leaves { LeavesNet self.old.net self.new.net self.new.net.stopped result }
    {
        match read_row(&self.places, line, self.net.shape()) {
            Err(fault) => Err(Stop::Row(fault)),
            Ok(e) => {
                let has = read_next(&self.net, self.inputs, self.width, e, &mut self.row);
                let row = row_if(has, &self.row);
                match self.net.event(e, row, outside, steps) {
                    Ok(()) => Ok(()),
                    Err(fault) => Err(stop_by(fault)),
                }
            }
        }
    }

    fn missing(&self) -> Option<LossyOffence> {
        if self.net.reached().is_some() {
            None
        } else {
            Some(LossyOffence::Common(Offence::NoEnd))
        }
    }

    ghost long = { λ r line long. long_lossy_line r.net.bench.shape line long };

    ghost keeps_same = { λ r w. lossy_keeps_itself r.net r.inputs.now.rows (W.state w) };

    ghost keeps_on = { λ a u b v c w x y.
        lossy_keeps_on a.net b.net c.net a.inputs.now.rows b.inputs.now.rows c.inputs.now.rows (W.state u) (W.state v) (W.state w) x y };

    ghost keeps_rules = { λ a v b w x. λ i. lossy_rules_of (x.fixed.shape i) (x.fixed.timing i) (x.fixed.limit i) (x.fixed.rows i) };

    ghost keeps_prompt = { λ a v b w x prompt. prompt };
}

// Why a line is not taken that a running net answers with this fault.
fn stop_by(fault: LossyFault) -> Stop<LossyOffence>
    requires { (f : First) → fault ≢ Stopped f }
    ensures { IsLossyStopOf fault result }
{
    match fault {
        LossyFault::Offence(offence) => Stop::Offence(offence),
        LossyFault::Link => Stop::Link,
        LossyFault::Memory => Stop::Memory,
        LossyFault::Stopped(_) => unreachable!(),
    }
}
