// The nodes and the channels of a net that runs.
ghost use Rattle.std.specs.Prelude.{Option, List as Items, ◌<◌, ◌≤◌, ◌-◌, ◌^◌};
ghost use Rattle.lt_io.specs.Counts.{MayFail};
ghost use Rattle.lt_base.specs.declared.value.Value.{Value as Datum};
ghost use Rattle.lt_arch.specs.declared.limits.TheConstants.{GREATEST_TIME};
ghost use Rattle.lt_arch.specs.declared.event.Event.TheVariants.{Act, Del};
ghost use Rattle.lt_net.specs.Event.{given_row};
ghost use Rattle.lt_net.specs.Answered.{CanTake, AnswersGiven, AnswersAct, AnswersDelivery};
ghost use Rattle.lt_net.specs.Ran.{CanSend, HasSent};

use crate::receiving::receive;
use crate::sending::send_all;
use lt_arch::{Controller, Deed, Event, Timing, Watch};
use lt_base::{Steps, Value};
use lt_io::{Fabric, LinkErr};
use lt_machine::Machine;
use lt_net_bench::Bench;
use std::marker::Model;
use std::sync::ledger::Ledger;

/// A bench of nodes and channels, with the watch over their times.
#[derive(Drop)]
pub struct TimedBench<C: Controller, M: Machine> {
    pub inner: Bench<C, M>,
    pub timing: Timing,
    pub watch: Watch,
}

impl<C: Controller, M: Machine> Model for TimedBench<C, M> {
    ghost use Rattle.std.specs.Coded.{codes};
    ghost use Rattle.lt_base.specs.Program.{coded_function};
    ghost use Rattle.lt_net.specs.Net.{TimedBenchState};

    ghost Value = { TimedBenchState C M };

    ghost coded = { Prim.hlevel (codes, coded_function) };

    ghost view = { λ a. record {
      layout = a.inner.layout;
      shape = a.inner.shape;
      timing = a.timing;
      rows = a.inner.rows;
      watch = a.watch;
      machines = a.inner.machines;
      controllers = a.inner.controllers;
      executed = a.inner.executed;
      inboxes = a.inner.inboxes;
      buffers = a.inner.buffers;
      tracks = a.inner.tracks;
      routes = a.inner.routes;
      exits = a.inner.exits;
      ports = a.inner.ports;
      values = a.inner.values;
      outs = a.inner.outs;
    } };
}

impl<C: Controller, M: Machine> TimedBench<C, M> {
    /// An event without an offence.
    pub fn take<W: Fabric, L: Ledger>(
        &mut self,
        e: Event,
        row: Option<&[Value]>,
        fabric: &mut W,
        steps: &mut Steps<L>,
    ) -> Result<(), LinkErr>
        requires can { CanTake C.Controller M.Machine self.old e (given_row row) (W.state fabric.old) }
        requires count { MayFail (W.state fabric.old).faults }
        ensures { AnswersGiven C.Controller M.Machine self.old self.new e row.entry (W.state fabric.old) (W.state fabric.new) steps.old steps.new result }
    {
        match e {
            Event::Act(node, at) => self.act(node, at, row, fabric, steps),
            Event::Del(ch, at) => self.deliver(ch, at, fabric, steps),
            Event::End(at) => {
                self.watch.ended(at, steps);
                Ok(())
            }
        }
    }

    // A delivery. An error changes nothing.
    fn deliver<W: Fabric, L: Ledger>(
        &mut self,
        ch: u32,
        at: u64,
        fabric: &mut W,
        steps: &mut Steps<L>,
    ) -> Result<(), LinkErr>
        requires can { (row : Option (Items Datum)) × CanTake C.Controller M.Machine self.old (Del ch at) row (W.state fabric.old) }
        requires count { MayFail (W.state fabric.old).faults }
        ensures { AnswersDelivery C.Controller M.Machine self.old self.new ch at (W.state fabric.old) (W.state fabric.new) steps.old steps.new result }
    {
        let bench = &mut self.inner;
        receive(&mut bench.inboxes, &mut bench.values, ch, fabric)?;
        self.watch.delivered(ch, at, steps);
        Ok(())
    }

    // An activation. An error comes after the node's instant, where it executes.
    fn act<W: Fabric, L: Ledger>(
        &mut self,
        node: u32,
        at: u64,
        row: Option<&[Value]>,
        fabric: &mut W,
        steps: &mut Steps<L>,
    ) -> Result<(), LinkErr>
        requires can { CanTake C.Controller M.Machine self.old (Act node at) (given_row row) (W.state fabric.old) }
        requires count { MayFail (W.state fabric.old).faults }
        ensures { AnswersAct C.Controller M.Machine self.old self.new node at row.entry (W.state fabric.old) (W.state fabric.new) steps.old steps.new result }
    {
        let deed = self.inner.wake(node);
        match deed {
            Deed::Nothing => {
                self.watch.acted(node, at, steps);
                Ok(())
            }
            Deed::Send => {
                self.inner.read(node, false);
                self.send(node, true, at, fabric, steps)
            }
            Deed::Execute => {
                let Some(row) = row else { return Ok(()) };
                let rows = self.inner.rows;
                self.inner.execute(node, rows, row, steps);
                self.send(node, false, at, fabric, steps)
            }
        }
    }

    // Sends a node's messages of a kind, and tells the watch of them and of the node's activation.
    fn send<W: Fabric, L: Ledger>(
        &mut self,
        node: u32,
        kind: bool,
        at: u64,
        fabric: &mut W,
        steps: &mut Steps<L>,
    ) -> Result<(), LinkErr>
        requires can { CanSend self.old node kind (W.state fabric.old) }
        requires time { at ≤ GREATEST_TIME }
        requires count { MayFail (W.state fabric.old).faults }
        ensures { HasSent self.old self.new node kind at (W.state fabric.old) (W.state fabric.new) steps.old steps.new result }
    {
        let bench = &self.inner;
        send_all(
            &bench.shape.channels,
            &bench.ports,
            &bench.buffers,
            &bench.inboxes,
            node,
            kind,
            at,
            &mut self.watch,
            fabric,
            steps,
        )?;
        self.watch.acted(node, at, steps);
        Ok(())
    }
}
