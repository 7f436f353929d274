// The net over links that lose messages.
ghost use Rattle.std.specs.Prelude.{◌≡◌, ◌<◌, ◌+◌, ◌-◌, ◌^◌, ◌*◌, ◌↔◌, None, IsTrue, OnOk, IsErrOf, slice_index_or, length, map, IfOk};
ghost use Rattle.lt_io.specs.Counts.{MayFail};
ghost use Rattle.lt_arch.specs.declared.timing.Protocol.TheVariants.{BackPressure as ByPressure};
ghost use Rattle.lt_arch.specs.Readers.{node_count, chan_count};
ghost use Rattle.lt_arch.specs.Shapes.{HaveSameNodes};
ghost use Rattle.lt_io.specs.FabricState.{FabricState, KeepsFabric, OpensFabric, SameLists};
ghost use Rattle.lt_lossy.specs.Events.{IsLossyEventOf};
ghost use Rattle.lt_lossy.specs.Window.{HasWindow};
ghost use Rattle.lt_norm.specs.Flat.{Originated};
ghost use Rattle.lt_place.specs.Layout.{IsPlaced};
ghost use Rattle.lt_net_node.specs.Channels.{FitsLayout};
ghost use Rattle.lt_net_bench.specs.Starts.{kinds_for, AreReady};
ghost use Rattle.lt_net_bench.specs.Track.{track_at};
ghost use Rattle.lt_net.specs.Event.{given_row};
ghost use Rattle.lt_net_lossy.specs.Starts.{IsMadeOfLossy, IsFreshLossy};
ghost use Rattle.lt_net_lossy.specs.Given.{IsLossyRowFor};
ghost use Rattle.lt_net_lossy.specs.Halts.{RefusesLossy, HaltsLossy, WantsRoom};
ghost use Rattle.lt_net_lossy.specs.Taken.{LossyHeld, HasLossyKinds, SameLossyStatic, IsKeptLossy, Takes, LeavesHaltedLossy, StandsOpened, TellsLossyOffence};

use crate::LossyFault;
use crate::bench::LossyBench;
use crate::starting::controllers;
use lt_arch::{Controller, Shape, Timing};
use lt_base::{Cell, List, Memory, Steps, Value};
use lt_bp::BackPressure;
use lt_io::{Fabric, LinkErr};
use lt_lossy::LossyEvent;
use lt_machine::Machine;
use lt_net::{First, Replayed};
use lt_net_bench::cells_of;
use lt_place::Layout;
use std::alloc::Global;
use std::marker::Model;
use std::sync::ledger::Ledger;

/// Nodes that run their parts under back-pressure over links that lose messages: each activation sends the node's newest messages
/// again. A failed call on the fabric stops it.
#[derive(Drop)]
pub struct LossyNet<M: Machine> {
    bench: LossyBench<BackPressure, M>,
    stopped: Option<First>,
}

impl<M: Machine> Model for LossyNet<M> {
    ghost use Rattle.std.specs.Coded.{codes};
    ghost use Rattle.lt_base.specs.Program.{coded_function};
    ghost use Rattle.lt_net_lossy.specs.NetModel.{LossyNetState};
    ghost use Rattle.lt_bp.specs.declared.controller.BackPressure.{BackPressure};
    ghost use Rattle.lt_net_lossy.specs.Taken.{IsKeptLossy as Keeps};

    ghost Value = { LossyNetState BackPressure M };

    ghost coded = { Prim.hlevel (codes, coded_function) };

    ghost view = { λ a. record { bench = a.bench; stopped = a.stopped } };

    ghost invariant = { λ a. Keeps a.bench };
}

impl<M: Machine> LossyNet<M> {
    /// A net before its first event, where so many losses in a row are allowed on a channel. Room for all that its events need is
    /// taken here.
    pub fn start(
        alloc: Global,
        layout: Layout,
        shape: Shape,
        timing: Timing,
        losses: u64,
        rows: u32,
        machines: Vec<M>,
    ) -> Result<LossyNet<M>, Memory>
        requires placed { (f : Originated) × IsPlaced f layout }
        requires protocol { timing.protocol ≡ ByPressure }
        requires shape { FitsLayout layout timing.protocol shape }
        requires nodes { HaveSameNodes shape timing }
        requires window { HasWindow timing }
        requires numbered { 2 * (node_count shape + chan_count shape) < 2 ^ 32 }
        requires machines { AreReady M.Machine layout rows machines.items }

        // It has these parts, and nothing has happened.
        ensures running { IfOk result (λ net. net.stopped ≡ None) }
        ensures made { IfOk result (λ net. IsMadeOfLossy layout shape timing losses rows machines.items net.bench) }
        ensures fresh { IfOk result (λ net. IsFreshLossy ⟦<BackPressure as Controller>⟧ M.Machine net.bench) }
        ensures counts { IfOk result (λ net. length net.bench.executed ≡ node_count net.bench.shape) }
        ensures tracks { IfOk result (λ net. length net.bench.tracks ≡ length net.bench.layout.outs) }

        // Over a fabric opened with its channels' types it stands for no lists.
        ensures opened { IfOk result (λ net. StandsOpened ⟦<BackPressure as Controller>⟧ M.Machine layout shape net.bench) }
        ensures kinds { IfOk result (λ net. (old new : FabricState) → OpensFabric old new (kinds_for layout shape) → HasLossyKinds net.bench new) }
    {
        let controllers = controllers(alloc, shape.nodes.len())?;
        match LossyBench::start(
            alloc,
            layout,
            shape,
            timing,
            losses,
            rows,
            machines,
            controllers,
        ) {
            Ok(bench) => Ok(LossyNet {
                bench,
                stopped: None,
            }),
            Err(error) => Err(error),
        }
    }

    /// What every net keeps, for callers.
    pub fn invariant_holds(&self)
        ensures kept { IsKeptLossy self.now.bench }
        ensures tracks { length self.now.bench.tracks ≡ length self.now.bench.layout.outs }
    {
        let _ = &self.bench;
    }

    /// Its nodes and channels.
    pub fn shape(&self) -> &Shape
        ensures { result.now ≡ self.now.bench.shape }
    {
        &self.bench.inner.shape
    }

    /// How many instants a node has executed.
    pub fn executed(&self, node: u32) -> u32
        requires { node < length self.now.bench.executed }
        ensures { result ≡ slice_index_or self.now.bench.executed node 0 }
    {
        self.bench.inner.executed[node as usize]
    }

    /// The cells of an output so far.
    pub fn cells(&self, output: u32) -> &[Cell]
        requires { output < length self.now.bench.tracks }
        ensures { result.now ≡ (track_at self.now.bench.tracks output).cells }
    {
        self.bench.inner.tracks[output as usize].as_slice()
    }

    /// The horizon, once the end was taken.
    pub fn reached(&self) -> Option<u64>
        ensures { result ≡ self.now.bench.watch.horizon }
    {
        self.bench.watch.reached()
    }

    /// Its machines, as they are.
    pub fn into_machines(self) -> List<M>
        ensures { result ≡ self.bench.machines }
    {
        let (machines, _, _) = self.bench.into_ends();
        List::of(machines)
    }

    /// What it has at this horizon: its machines, the cells of its outputs and its layout, of which nothing is copied.
    pub fn into_replayed(self, alloc: Global, horizon: u64) -> Result<Replayed<M>, Memory>
        ensures cells { IfOk result (λ replayed. replayed.cells ≡ map (λ track. track.cells) self.bench.tracks) }
        ensures horizon { IfOk result (λ replayed. replayed.horizon ≡ horizon) }
        ensures machines { IfOk result (λ replayed. replayed.machines ≡ self.bench.machines) }
        ensures layout { IfOk result (λ replayed. replayed.layout ≡ self.bench.layout) }
    {
        let (machines, tracks, layout) = self.bench.into_ends();
        let cells = cells_of(alloc, tracks)?;
        Ok(Replayed {
            cells,
            horizon,
            machines: List::of(machines),
            layout,
        })
    }

    /// Judges an event, and takes it where it has no offence.
    pub fn event<W: Fabric, L: Ledger>(
        &mut self,
        e: LossyEvent,
        row: Option<&[Value]>,
        fabric: &mut W,
        steps: &mut Steps<L>,
    ) -> Result<(), LossyFault>
        requires event { IsLossyEventOf self.old.bench.shape e }
        requires count { MayFail (W.state fabric.old).faults }
        requires kinds { self.old.stopped ≡ None → HasLossyKinds self.old.bench (W.state fabric.old) }
        requires holds { self.old.stopped ≡ None → LossyHeld ⟦<BackPressure as Controller>⟧ M.Machine self.old.bench (W.state fabric.old) }
        requires row { self.old.stopped ≡ None → IsLossyRowFor self.old.bench e (given_row row) }

        // Which answer.
        ensures stopped { (f : First) → (result ≡ Err (LossyFault.Stopped f)) ↔ (self.old.stopped ≡ Some f) }
        ensures offence { self.old.stopped ≡ None → TellsLossyOffence ⟦<BackPressure as Controller>⟧ M.Machine self.old.bench e result }
        ensures link { IsErrOf result LossyFault.Link → (W.state fabric.old).faults < (W.state fabric.new).faults }
        ensures prompt { IsTrue (W.state fabric.old).prompt → IsErrOf result LossyFault.Memory → WantsRoom self.old.bench.shape e (W.state fabric.old) }
        ensures calm { ¬ IsErrOf result LossyFault.Link → (W.state fabric.new).faults ≡ (W.state fabric.old).faults }

        // What a refusal leaves.
        ensures same { RefusesLossy result → self.new ≡ self.old }
        ensures lists { RefusesLossy result → SameLists (W.state fabric.old) (W.state fabric.new) }

        // What an event that is taken does.
        ensures running { OnOk result (self.new.stopped ≡ None) }
        ensures happens { OnOk result (Takes ⟦<BackPressure as Controller>⟧ M.Machine self.old self.new e row.entry (W.state fabric.old) (W.state fabric.new)) }
        ensures holds { OnOk result (LossyHeld ⟦<BackPressure as Controller>⟧ M.Machine self.new.bench (W.state fabric.new)) }
        ensures kinds { OnOk result (HasLossyKinds self.new.bench (W.state fabric.new)) }

        // What a fault leaves.
        ensures halted_link { IsErrOf result LossyFault.Link → self.new.stopped ≡ Some First.Link }
        ensures halted_memory { IsErrOf result LossyFault.Memory → self.new.stopped ≡ Some First.Memory }
        ensures halted { HaltsLossy result → LeavesHaltedLossy ⟦<BackPressure as Controller>⟧ M.Machine self.old.bench self.new.bench e (given_row row.entry) }

        // What no event changes.
        ensures counts { length self.new.bench.executed ≡ node_count self.new.bench.shape }
        ensures tracks { length self.new.bench.tracks ≡ length self.new.bench.layout.outs }
        ensures sizes { map M.size self.new.bench.machines ≡ map M.size self.old.bench.machines }
        ensures fixed { SameLossyStatic self.old.bench self.new.bench }
        ensures keeps { KeepsFabric (W.state fabric.old) (W.state fabric.new) }
        ensures sound { IsTrue (W.state fabric.old).sound → (W.state fabric.new).faults ≡ (W.state fabric.old).faults }
    {
        if let Some(first) = self.stopped {
            return Err(LossyFault::Stopped(first));
        }
        if let Some(offence) = self.bench.watch.judge(&e, steps) {
            return Err(LossyFault::Offence(offence));
        }
        match self.bench.take(e, row, fabric, steps) {
            Ok(()) => Ok(()),
            Err(LinkErr::Failed) => {
                self.stopped = Some(First::Link);
                Err(LossyFault::Link)
            }
            Err(LinkErr::Memory) => {
                self.stopped = Some(First::Memory);
                Err(LossyFault::Memory)
            }
        }
    }
}
