// A net, as it takes the events of a schedule.
ghost use Rattle.std.specs.Prelude.{◌≡◌, ◌≢◌, ◌<◌, ◌+◌, ◌-◌, ◌*◌, ◌^◌, IsTrue, [], List as Items, length, IfOk};
ghost use Rattle.lt_arch.specs.declared.event.Event.{Event as OfEvent};
ghost use Rattle.lt_base.specs.Behaviour.{RowsFit};
ghost use Rattle.lt_arch.specs.Readers.{node_count, chan_count};
ghost use Rattle.lt_arch.specs.Schedule.{OnePlace, IsEventOf};
ghost use Rattle.lt_arch.specs.Shapes.{HaveSameNodes};
ghost use Rattle.lt_io.specs.Counts.{MayFail, LinkCounted};
ghost use Rattle.lt_io.specs.FabricState.{KeepsPromises, OpensOnce};
ghost use Rattle.lt_schedule.specs.Taken.{IsMemoryStop, StopCounted};
ghost use Rattle.lt_schedule.specs.Verdict.{rules_of};
ghost use Rattle.lt_schedule.specs.Long.{long_line};
ghost use Rattle.lt_norm.specs.Flat.{Originated};
ghost use Rattle.lt_step.specs.Run.{HasRowValues};
ghost use Rattle.lt_place.specs.Layout.{IsPlaced};
ghost use Rattle.lt_net_node.specs.Channels.{FitsLayout};
ghost use Rattle.lt_net_bench.specs.Starts.{AreReady, ControllersAreAtStart};
ghost use Rattle.lt_net.specs.Starts.{IsMadeOf};
ghost use Rattle.lt_net_node.specs.Wakes.{AreConfigured};
ghost use Rattle.lt_net.specs.declared.fault.First.{First};
ghost use Rattle.lt_net.specs.declared.fault.NetFault.TheVariants.{Stopped};
ghost use Rattle.lt_net_replay.specs.Blamed.{IsStopOf};
ghost use Rattle.lt_net_start.specs.Ends.{LeavesNet};
ghost use Rattle.lt_net_replay.specs.Playing.{rules_for, PlaysFor, PlaysEvent, PlaysLine, KeepsPlayback};
ghost use Rattle.lt_net_replay.specs.Keeping.{keeps_itself, keeps_on};

use lt_arch::{Controller, Event, Offence, Shape, Timing};
use lt_base::{Inputs, Memory, Steps, Value};
use lt_io::{Fabric, LinkErr};
use lt_machine::Machine;
use lt_net::{Net, NetFault};
use lt_net_start::{open, read_next, row_if};
use lt_place::Layout;
use lt_rows::PlaceTable;
use lt_schedule::{Replica, Stop};
use std::alloc::Global;
use std::sync::ledger::Ledger;

/// A net beside its inputs, with room for one row of them.
#[derive(Drop)]
pub struct Playback<'a, C: Controller, M: Machine> {
    pub net: Net<C, M>,
    pub inputs: &'a Inputs,
    places: PlaceTable,
    width: u32,
    row: Vec<Value>,
}

impl<'a, C: Controller, M: Machine> Playback<'a, C, M> {
    /// A net before its first event, with so many inputs of `main`. The fabric, which has no channels yet, is opened with
    /// the net's first; an error of its leaves it as it was.
    pub fn start<W: Fabric>(
        alloc: Global,
        layout: Layout,
        shape: Shape,
        timing: Timing,
        inputs: &'a Inputs,
        width: u32,
        machines: Vec<M>,
        controllers: Vec<C>,
        fabric: &mut W,
    ) -> Result<Playback<'a, C, M>, LinkErr>
        requires placed { (f : Originated) × IsPlaced f layout × RowsFit f.func inputs.now.rows }
        requires shape { FitsLayout layout timing.protocol shape }
        requires nodes { HaveSameNodes shape timing }
        requires numbered { 2 * (node_count shape + chan_count shape) < 2 ^ 32 }
        requires width { inputs.now.width ≡ width }
        requires wide { HasRowValues width inputs.now.rows }
        requires one_place { OnePlace shape timing (length inputs.now.rows) }
        requires machines { AreReady M.Machine layout (length inputs.now.rows) machines.items }
        requires controllers { ControllersAreAtStart C.Controller shape timing controllers.items }
        requires configured { AreConfigured C.Controller timing controllers.items }
        requires count { MayFail (W.state fabric.old).faults }
        requires empty { (W.state fabric.old).kinds ≡ [] }
        ensures inputs { IfOk result (λ playback. playback.inputs.now ≡ inputs.now) }
        ensures made { IfOk result (λ playback. IsMadeOf layout shape timing (length inputs.now.rows) machines.items controllers.items playback.net.bench) }
        ensures ready { IfOk result (λ playback. PlaysFor C.Controller M.Machine playback 0 (W.state fabric.new) []) }
        ensures opens { OpensOnce (W.state fabric.old) (W.state fabric.new) result }
        ensures cause { LinkCounted (W.state fabric.old).faults (W.state fabric.new).faults result }
        ensures keeps { KeepsPromises (W.state fabric.old) (W.state fabric.new) }
        ensures sound { IsTrue (W.state fabric.old).sound → (W.state fabric.new).faults ≡ (W.state fabric.old).faults }
    {
        match open(alloc, &layout, &shape, width, fabric) {
            Ok((places, row)) => {
                let count = inputs.rows();
                match Net::start(alloc, layout, shape, timing, count, machines, controllers) {
                    Ok(net) => Ok(Playback {
                        net,
                        inputs,
                        places,
                        width,
                        row,
                    }),
                    Err(Memory) => {
                        drop(places);
                        drop(row);
                        Err(LinkErr::Memory)
                    }
                }
            }
            Err(e) => {
                drop(layout);
                drop(shape);
                drop(timing);
                drop(machines);
                drop(controllers);
                Err(e)
            }
        }
    }
}

impl<C: Controller, M: Machine> Playback<'_, C, M> {
    /// Takes an event, with the row of inputs that it needs. It is refused where it has an offence.
    pub fn take_event<W: Fabric, L: Ledger>(
        &mut self,
        e: Event,
        fabric: &mut W,
        steps: &mut Steps<L>,
    ) -> Result<(), Stop<Offence>>
        requires event { IsEventOf self.old.net.bench.shape e }
        requires count { MayFail (W.state fabric.old).faults }
        requires stands { (before : Items OfEvent) × PlaysFor C.Controller M.Machine self.old steps.old (W.state fabric.old) before }
        ensures cause { StopCounted (W.state fabric.old).faults (W.state fabric.new).faults result }
        ensures prompt { IsTrue (W.state fabric.old).prompt → ¬ IsMemoryStop result }
        ensures keeps { KeepsPlayback M.size self.old self.new (W.state fabric.old) (W.state fabric.new) }
        ensures takes { PlaysEvent C.Controller M.Machine self.old self.new e steps.old steps.new (W.state fabric.old) (W.state fabric.new) result }

        // An event that is refused leaves the net as it was; a failed call or want of memory has stopped it.
        ensures leaves { LeavesNet self.old.net self.new.net self.new.net.stopped result }
    {
        let has = read_next(&self.net, self.inputs, self.width, e, &mut self.row);
        let row = row_if(has, &self.row);
        match self.net.event(e, row, fabric, steps) {
            Ok(()) => Ok(()),
            Err(fault) => Err(stop_by(fault)),
        }
    }
}

impl<C: Controller, M: Machine, W: Fabric> Replica<W> for Playback<'_, C, M> {
    type Event = Event;

    type Offence = Offence;

    ghost rules = { λ a. rules_for a };

    ghost stands = { λ a w steps before. PlaysFor C.Controller M.Machine a steps (W.state w) before };

    ghost keeps = { λ a v b w. KeepsPlayback M.size a b (W.state v) (W.state w) };

    ghost faults = { λ w. (W.state w).faults };

    ghost prompt = { λ w. IsTrue (W.state w).prompt };

    fn take_line<L: Ledger>(
        &mut self,
        line: &[u8],
        outside: &mut W,
        steps: &mut Steps<L>,
    ) -> Result<(), Stop<Offence>>
        requires count { MayFail (W.state outside.old).faults }
        requires stands { (before : Items OfEvent) × PlaysFor C.Controller M.Machine self.old steps.old (W.state outside.old) before }
        ensures cause { StopCounted (W.state outside.old).faults (W.state outside.new).faults result }
        ensures prompt { IsTrue (W.state outside.old).prompt → ¬ IsMemoryStop result }
        ensures keeps { KeepsPlayback M.size self.old self.new (W.state outside.old) (W.state outside.new) }
        ensures takes { PlaysLine C.Controller M.Machine self.old self.new line.now steps.old steps.new (W.state outside.old) (W.state outside.new) result }

        // A line that is refused leaves the net as it was; a failed call or want of memory has stopped it.
        ensures leaves { LeavesNet self.old.net self.new.net self.new.net.stopped result }
    {
        match self.places.read_event(line, self.net.shape()) {
            Err(fault) => Err(Stop::Row(fault)),
            Ok(e) => self.take_event(e, outside, steps),
        }
    }

    fn missing(&self) -> Option<Offence> {
        if self.net.reached().is_some() {
            None
        } else {
            Some(Offence::NoEnd)
        }
    }

    ghost long = { λ r line long. long_line r.net.bench.shape line long };

    ghost keeps_same = { λ r w. keeps_itself M.size r.net r.inputs.now.rows (W.state w) };

    ghost keeps_on = { λ a u b v c w x y.
        keeps_on M.size a.net b.net c.net a.inputs.now.rows b.inputs.now.rows c.inputs.now.rows (W.state u) (W.state v) (W.state w) x y };

    ghost keeps_rules = { λ a v b w x. λ i. rules_of (x.fixed.shape i) (x.fixed.timing i) (x.fixed.rows i) };

    ghost keeps_prompt = { λ a v b w x prompt. x.fabric_kept.prompt prompt };
}

// Why a line is not taken that a running net answers with this fault.
fn stop_by(fault: NetFault) -> Stop<Offence>
    requires { (f : First) → fault ≢ Stopped f }
    ensures { IsStopOf fault result }
{
    match fault {
        NetFault::Offence(offence) => Stop::Offence(offence),
        NetFault::Link => Stop::Link,
        NetFault::Memory => Stop::Memory,
        NetFault::Stopped(_) => unreachable!(),
    }
}
