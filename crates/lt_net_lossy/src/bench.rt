// The nodes and the channels of a net that runs over links that lose messages.
ghost use Rattle.std.specs.Prelude.{Option, ◌≡◌, ◌<◌, ◌≤◌, ◌-◌, IsTrue, true, false, OnOk, OnErr, IsErrOf, map, slice_index_or};
ghost use Rattle.lt_arch.specs.declared.limits.TheConstants.{GREATEST_TIME};
ghost use Rattle.lt_arch.specs.declared.event.Event.TheVariants.{Act, Del, End};
ghost use Rattle.lt_arch.specs.Readers.{node_count, chan_count};
ghost use Rattle.lt_io.specs.declared.fault.LinkErr.TheVariants.{Memory as NoMemory};
ghost use Rattle.lt_io.specs.Counts.{MayFail, LinkCounted};
ghost use Rattle.lt_io.specs.FabricState.{FabricState, KeepsFabric, SameLists};
ghost use Rattle.lt_lossy.specs.declared.event.LossyEvent.TheVariants.{Plain, Lose};
ghost use Rattle.lt_lossy.specs.Events.{IsLossyEventOf};
ghost use Rattle.lt_net_node.specs.Freshness.{TakenUpTo};
ghost use Rattle.lt_link.specs.Ports.{is_to, HasPorts, is_from};
ghost use Rattle.lt_net.specs.Event.{given_row};
ghost use Rattle.lt_net_lossy.specs.Kept.{HasLossySizes};
ghost use Rattle.lt_net_lossy.specs.Changes.{PostedUpTo};
ghost use Rattle.lt_net_lossy.specs.Deeds.{DoesGiven, PostsNewest, LossyCanAct};
ghost use Rattle.lt_net_lossy.specs.Sends.{HasRoomToSend, NodeSendsAgain};
ghost use Rattle.lt_net_lossy.specs.Given.{HasLossyRow, IsLossyRowFor};
ghost use Rattle.lt_net_lossy.specs.Halts.{SendsBehind, WantsRoom};
ghost use Rattle.lt_net_lossy.specs.Event.{PassesWatch};
ghost use Rattle.lt_net_lossy.specs.Taken.{LossyHeld, HasLossyKinds, SameLossyStatic, IsKeptLossy, TakesGiven, TakesAct, TakesRowless, LeavesHaltedLossy};

use crate::posted::Posted;
use crate::posting::post_all;
use crate::receiving::{lose, receive};
use crate::sending::send_number;
use lt_arch::{Chan, Controller, Deed, Event, Timing};
use lt_base::{Steps, Value};
use lt_io::{Fabric, LinkErr};
use lt_lossy::{LossyEvent, LossyWatch};
use lt_machine::Machine;
use lt_net_bench::Bench;
use std::marker::Model;
use std::sync::ledger::Ledger;

/// A bench of nodes and channels, and besides how many instants each node has sent, and of each channel its sender's payload of the
/// instant that it sent last.
#[derive(Drop)]
pub struct LossyBench<C: Controller, M: Machine> {
    pub inner: Bench<C, M>,
    pub timing: Timing,
    pub watch: LossyWatch,
    pub sent: Vec<u32>,
    pub posted: Vec<Posted>,
}

impl<C: Controller, M: Machine> Model for LossyBench<C, M> {
    ghost use Rattle.std.specs.Coded.{codes};
    ghost use Rattle.lt_base.specs.Program.{coded_function};
    ghost use Rattle.lt_net_lossy.specs.Net.{LossyBenchState};

    ghost Value = { LossyBenchState C M };

    ghost coded = { Prim.hlevel (codes, coded_function) };

    ghost view = { λ a. record {
      layout = a.inner.layout;
      shape = a.inner.shape;
      timing = a.timing;
      rows = a.inner.rows;
      watch = a.watch;
      machines = a.inner.machines;
      controllers = a.inner.controllers;
      executed = a.inner.executed;
      sent = a.sent.items;
      inboxes = a.inner.inboxes;
      buffers = a.inner.buffers;
      posted = a.posted.items;
      tracks = a.inner.tracks;
      routes = a.inner.routes;
      exits = a.inner.exits;
      ports = a.inner.ports;
      values = a.inner.values;
      outs = a.inner.outs;
    } };
}

impl<C: Controller, M: Machine> LossyBench<C, M> {
    /// An event without an offence.
    pub fn take<W: Fabric, L: Ledger>(
        &mut self,
        e: LossyEvent,
        row: Option<&[Value]>,
        fabric: &mut W,
        steps: &mut Steps<L>,
    ) -> Result<(), LinkErr>
        requires kept { IsKeptLossy self.old }
        requires held { LossyHeld C.Controller M.Machine self.old (W.state fabric.old) }
        requires kinds { HasLossyKinds self.old (W.state fabric.old) }
        requires event { IsLossyEventOf self.old.shape e }
        requires passes { PassesWatch self.old.watch e }
        requires count { MayFail (W.state fabric.old).faults }
        requires row { IsLossyRowFor self.old e (given_row row) }
        ensures taken { OnOk result (TakesGiven C.Controller M.Machine self.old self.new e row.entry (W.state fabric.old) (W.state fabric.new)) }
        ensures halted { OnErr result (LeavesHaltedLossy C.Controller M.Machine self.old self.new e (given_row row.entry)) }
        ensures kept { IsKeptLossy self.new }
        ensures fixed { SameLossyStatic self.old self.new }
        ensures sizes { map M.size self.new.machines ≡ map M.size self.old.machines }
        ensures cause { LinkCounted (W.state fabric.old).faults (W.state fabric.new).faults result }
        ensures keeps { KeepsFabric (W.state fabric.old) (W.state fabric.new) }
        ensures sound { IsTrue (W.state fabric.old).sound → (W.state fabric.new).faults ≡ (W.state fabric.old).faults }
        ensures prompt { IsTrue (W.state fabric.old).prompt → IsErrOf result NoMemory → WantsRoom self.old.shape e (W.state fabric.old) }
    {
        match e {
            LossyEvent::Plain(Event::Act(node, at)) => self.act(node, at, row, fabric, steps),
            LossyEvent::Plain(Event::Del(ch, at)) => self.deliver(ch, at, fabric, steps),
            LossyEvent::Plain(Event::End(at)) => {
                self.end(at, steps);
                Ok(())
            }
            LossyEvent::Lose(ch, at) => self.lose(ch, at, fabric, steps),
        }
    }

    /// An activation. An error comes after the node's deed.
    pub fn act<W: Fabric, L: Ledger>(
        &mut self,
        node: u32,
        at: u64,
        row: Option<&[Value]>,
        fabric: &mut W,
        steps: &mut Steps<L>,
    ) -> Result<(), LinkErr>
        requires kept { IsKeptLossy self.old }
        requires held { LossyHeld C.Controller M.Machine self.old (W.state fabric.old) }
        requires kinds { HasLossyKinds self.old (W.state fabric.old) }
        requires node { node < node_count self.old.shape }
        requires time { at ≤ GREATEST_TIME }
        requires passes { PassesWatch self.old.watch (Plain (Act node at)) }
        requires count { MayFail (W.state fabric.old).faults }
        requires row { HasLossyRow self.old node (given_row row) }
        ensures taken { OnOk result (TakesAct C.Controller M.Machine self.old self.new node at row.entry (W.state fabric.old) (W.state fabric.new)) }
        ensures halted { OnErr result (LeavesHaltedLossy C.Controller M.Machine self.old self.new (Plain (Act node at)) (given_row row.entry)) }
        ensures kept { IsKeptLossy self.new }
        ensures fixed { SameLossyStatic self.old self.new }
        ensures sizes { map M.size self.new.machines ≡ map M.size self.old.machines }
        ensures cause { LinkCounted (W.state fabric.old).faults (W.state fabric.new).faults result }
        ensures keeps { KeepsFabric (W.state fabric.old) (W.state fabric.new) }
        ensures sound { IsTrue (W.state fabric.old).sound → (W.state fabric.new).faults ≡ (W.state fabric.old).faults }
        ensures prompt { IsTrue (W.state fabric.old).prompt → IsErrOf result NoMemory → SendsBehind self.old.shape node (W.state fabric.old) }
    {
        self.deed(node, row, steps);
        self.resend(node, at, fabric, steps)
    }

    // Does the deed of an activation, without messages.
    fn deed<L: Ledger>(&mut self, node: u32, row: Option<&[Value]>, steps: &mut Steps<L>)
        requires kept { IsKeptLossy self.old }
        requires can { LossyCanAct C.Controller M.Machine self.old node }
        requires node { node < node_count self.old.shape }
        requires row { HasLossyRow self.old node (given_row row) }
        ensures does { DoesGiven C.Controller M.Machine self.old self.new node row.entry }
        ensures kept { IsKeptLossy self.new }
        ensures fixed { SameLossyStatic self.old self.new }
        ensures watch { self.new.watch ≡ self.old.watch }
        ensures sizes { map M.size self.new.machines ≡ map M.size self.old.machines }
    {
        let deed = self.inner.wake(node);
        match deed {
            Deed::Nothing => {}
            Deed::Send => self.post(node),
            Deed::Execute => {
                let Some(row) = row else { return };
                let rows = self.inner.rows;
                self.inner.execute(node, rows, row, steps);
            }
        }
    }

    // A node's newest payloads are those that are sent from now on, and its acknowledgements are read.
    fn post(&mut self, node: u32)
        requires sized { HasLossySizes self.old }
        requires ports { HasPorts self.old.shape.channels node self.old.ports }
        requires node { node < node_count self.old.shape }
        ensures posts { PostedUpTo (chan_count self.old.shape) (is_from self.old.shape.channels node true) self.old.buffers self.old.posted self.new.posted }
        ensures taken { TakenUpTo (chan_count self.old.shape) (is_to self.old.shape.channels node false) self.old.inboxes self.new.inboxes }
        ensures is { PostsNewest self.old self.new node }
    {
        self.inner.read(node, false);
        let bench = &self.inner;
        post_all(
            &bench.shape.channels,
            &bench.ports,
            &bench.buffers,
            &mut self.posted,
            node,
        );
        self.sent[node as usize] = bench.executed[node as usize];
    }

    // Sends a node's newest messages on all its channels.
    fn resend<W: Fabric, L: Ledger>(
        &mut self,
        node: u32,
        at: u64,
        fabric: &mut W,
        steps: &mut Steps<L>,
    ) -> Result<(), LinkErr>
        requires kept { IsKeptLossy self.old }
        requires kinds { HasLossyKinds self.old (W.state fabric.old) }
        requires node { node < node_count self.old.shape }
        requires time { at ≤ GREATEST_TIME }
        requires space { HasRoomToSend self.old.shape node (slice_index_or self.old.sent node 0) (slice_index_or self.old.executed node 0) self.old.watch }
        requires count { MayFail (W.state fabric.old).faults }
        ensures again { OnOk result (NodeSendsAgain self.old self.new node at (W.state fabric.old) (W.state fabric.new)) }
        ensures kept { IsKeptLossy self.new }
        ensures is { self.new ≡ record self.old { watch = self.new.watch } }
        ensures limit { self.new.watch.limit ≡ self.old.watch.limit }
        ensures cause { LinkCounted (W.state fabric.old).faults (W.state fabric.new).faults result }
        ensures keeps { KeepsFabric (W.state fabric.old) (W.state fabric.new) }
        ensures sound { IsTrue (W.state fabric.old).sound → (W.state fabric.new).faults ≡ (W.state fabric.old).faults }
        ensures prompt { IsTrue (W.state fabric.old).prompt → IsErrOf result NoMemory → SendsBehind self.old.shape node (W.state fabric.old) }
    {
        let sent = self.sent[node as usize];
        let bench = &self.inner;
        let executed = bench.executed[node as usize];
        let channels: &[Chan] = &bench.shape.channels;
        send_number(
            channels,
            &bench.ports,
            &self.posted,
            node,
            true,
            sent,
            at,
            &mut self.watch,
            fabric,
            steps,
        )?;
        send_number(
            channels,
            &bench.ports,
            &self.posted,
            node,
            false,
            executed,
            at,
            &mut self.watch,
            fabric,
            steps,
        )?;
        self.watch.acted(node, at, steps);
        Ok(())
    }

    /// A delivery. An error changes nothing.
    pub fn deliver<W: Fabric, L: Ledger>(
        &mut self,
        ch: u32,
        at: u64,
        fabric: &mut W,
        steps: &mut Steps<L>,
    ) -> Result<(), LinkErr>
        requires kept { IsKeptLossy self.old }
        requires held { LossyHeld C.Controller M.Machine self.old (W.state fabric.old) }
        requires kinds { HasLossyKinds self.old (W.state fabric.old) }
        requires channel { ch < chan_count self.old.shape }
        requires time { at ≤ GREATEST_TIME }
        requires passes { PassesWatch self.old.watch (Plain (Del ch at)) }
        requires count { MayFail (W.state fabric.old).faults }
        ensures taken { OnOk result (TakesRowless C.Controller M.Machine self.old self.new (Plain (Del ch at)) (W.state fabric.old) (W.state fabric.new)) }
        ensures unchanged { OnErr result (self.new ≡ self.old) }
        ensures kept { IsKeptLossy self.new }
        ensures fixed { SameLossyStatic self.old self.new }
        ensures machines { self.new.machines ≡ self.old.machines }
        ensures lists { OnErr result (SameLists (W.state fabric.old) (W.state fabric.new)) }
        ensures cause { LinkCounted (W.state fabric.old).faults (W.state fabric.new).faults result }
        ensures keeps { KeepsFabric (W.state fabric.old) (W.state fabric.new) }
        ensures sound { IsTrue (W.state fabric.old).sound → (W.state fabric.new).faults ≡ (W.state fabric.old).faults }
        ensures prompt { IsTrue (W.state fabric.old).prompt → ¬ IsErrOf result NoMemory }
    {
        let bench = &mut self.inner;
        receive(&mut bench.inboxes, &mut bench.values, ch, fabric)?;
        self.watch.delivered(ch, at, steps);
        Ok(())
    }

    /// A loss. An error changes nothing.
    pub fn lose<W: Fabric, L: Ledger>(
        &mut self,
        ch: u32,
        at: u64,
        fabric: &mut W,
        steps: &mut Steps<L>,
    ) -> Result<(), LinkErr>
        requires kept { IsKeptLossy self.old }
        requires held { LossyHeld C.Controller M.Machine self.old (W.state fabric.old) }
        requires kinds { HasLossyKinds self.old (W.state fabric.old) }
        requires channel { ch < chan_count self.old.shape }
        requires time { at ≤ GREATEST_TIME }
        requires passes { PassesWatch self.old.watch (Lose ch at) }
        requires count { MayFail (W.state fabric.old).faults }
        ensures taken { OnOk result (TakesRowless C.Controller M.Machine self.old self.new (Lose ch at) (W.state fabric.old) (W.state fabric.new)) }
        ensures unchanged { OnErr result (self.new ≡ self.old) }
        ensures kept { IsKeptLossy self.new }
        ensures fixed { SameLossyStatic self.old self.new }
        ensures machines { self.new.machines ≡ self.old.machines }
        ensures lists { OnErr result (SameLists (W.state fabric.old) (W.state fabric.new)) }
        ensures cause { LinkCounted (W.state fabric.old).faults (W.state fabric.new).faults result }
        ensures keeps { KeepsFabric (W.state fabric.old) (W.state fabric.new) }
        ensures sound { IsTrue (W.state fabric.old).sound → (W.state fabric.new).faults ≡ (W.state fabric.old).faults }
        ensures prompt { IsTrue (W.state fabric.old).prompt → ¬ IsErrOf result NoMemory }
    {
        let bench = &mut self.inner;
        lose(&bench.inboxes, &mut bench.values, ch, fabric)?;
        self.watch.lost(ch, at, steps);
        Ok(())
    }

    /// An end.
    pub fn end<L: Ledger>(&mut self, at: u64, steps: &mut Steps<L>)
        requires kept { IsKeptLossy self.old }
        requires time { at ≤ GREATEST_TIME }
        requires passes { PassesWatch self.old.watch (Plain (End at)) }
        ensures taken { (fabric : FabricState) → TakesRowless C.Controller M.Machine self.old self.new (Plain (End at)) fabric fabric }
        ensures kept { IsKeptLossy self.new }
        ensures fixed { SameLossyStatic self.old self.new }
        ensures machines { self.new.machines ≡ self.old.machines }
        ensures cost { steps.new ≡ steps.old }
    {
        self.watch.ended(at, steps);
    }
}
