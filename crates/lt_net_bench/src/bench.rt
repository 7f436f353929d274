// The nodes and the channels of a network that runs, without time.
ghost use Rattle.std.specs.Prelude.{◌≡◌, ◌<◌, ◌≤◌, ◌+◌, Some, length, map, slice_get};
ghost use Rattle.lt_net_bench.specs.Executes.{bits_at, CanExecute, Executes, ChangesByInstant};
ghost use Rattle.lt_net_node.specs.Freshness.{TakenUpTo};
ghost use Rattle.lt_link.specs.Ports.{is_to, HasPorts};
ghost use Rattle.lt_net_node.specs.Wakes.{Wakes};

use crate::exit::Exit;
use crate::payload::Payload;
use crate::stepping::instant;
use crate::track::Track;
use lt_arch::{Controller, Deed, Shape};
use lt_base::{Cell, List, Steps, Value};
use lt_link::{Inbox, Ports};
use lt_machine::Machine;
use lt_net_node::freshness::take_all;
use lt_net_node::{Route, wake};
use lt_place::Layout;
use std::marker::Model;
use std::sync::ledger::Ledger;

/// A machine and a controller for each node, an inbox and a payload for each channel, and the cells of each output.
#[derive(Drop)]
pub struct Bench<C: Controller, M: Machine> {
    pub layout: Layout,
    pub shape: Shape,
    pub rows: u32,
    pub machines: Vec<M>,
    pub controllers: Vec<C>,
    pub executed: Vec<u32>,
    pub inboxes: Vec<Inbox>,
    // the sender's payload of the instant that it executed last
    pub buffers: Vec<Payload>,
    pub tracks: Vec<Track>,
    // where the values of crossings and of outputs go
    pub routes: Vec<Route>,
    pub exits: Vec<Exit>,
    // the channels of each node
    pub ports: List<Ports>,
    // room for a message or a row, and for a row of outputs
    pub values: Vec<Value>,
    pub outs: Vec<Cell>,
}

impl<C: Controller, M: Machine> Model for Bench<C, M> {
    ghost use Rattle.std.specs.Prelude.{length};
    ghost use Rattle.std.specs.Coded.{codes};
    ghost use Rattle.lt_base.specs.Program.{coded_function};
    ghost use Rattle.lt_net_bench.specs.Bench.{BenchState};

    ghost Value = { BenchState C M };

    ghost coded = { Prim.hlevel (codes, coded_function) };

    ghost view = { λ a. record {
      layout = a.layout;
      shape = a.shape;
      rows = a.rows;
      machines = a.machines.items;
      controllers = a.controllers.items;
      executed = a.executed.items;
      inboxes = a.inboxes.items;
      buffers = a.buffers.items;
      tracks = a.tracks.items;
      routes = a.routes.items;
      exits = a.exits.items;
      ports = a.ports;
      values = length a.values.items;
      outs = length a.outs.items;
    } };
}

impl<C: Controller, M: Machine> Bench<C, M> {
    /// What a node does, by the bits of its inboxes.
    pub fn wake(&mut self, node: u32) -> Deed
        requires inboxes { length self.old.inboxes ≡ length self.old.shape.channels }
        requires ports { HasPorts self.old.shape.channels node self.old.ports }
        requires node { node < length self.old.controllers }
        requires executed { node < length self.old.executed }
        ensures wakes { Wakes C.Controller self.old.controllers self.new.controllers node (bits_at self.old node) result }
        ensures rest { self.new ≡ record self.old { controllers = self.new.controllers } }
    {
        let shape = &self.shape;
        wake(
            &shape.channels,
            &self.ports,
            &self.inboxes,
            &self.executed,
            self.rows,
            node,
            &mut self.controllers,
        )
    }

    /// Reads a node's data channels, or those that acknowledge.
    pub fn read(&mut self, node: u32, data_too: bool)
        requires inboxes { length self.old.inboxes ≡ length self.old.shape.channels }
        requires ports { HasPorts self.old.shape.channels node self.old.ports }
        ensures taken { TakenUpTo (length self.old.shape.channels) (is_to self.old.shape.channels node data_too) self.old.inboxes self.new.inboxes }
        ensures rest { self.new ≡ record self.old { inboxes = self.new.inboxes } }
    {
        let shape = &self.shape;
        take_all(
            &shape.channels,
            &self.ports,
            &mut self.inboxes,
            node,
            data_too,
        );
    }

    /// Runs a node's next instant, and reads its data channels. `rows` is how many input rows there are.
    pub fn execute<L: Ledger>(&mut self, node: u32, rows: u32, row: &[Value], steps: &mut Steps<L>)
        requires rows { rows ≡ self.old.rows }
        requires can { CanExecute M.Machine self.old node row.now }
        ensures runs { Executes M.Machine self.old self.new node row.now }
        ensures rest { ChangesByInstant self.old self.new }
        ensures sizes { map M.size self.new.machines ≡ map M.size self.old.machines }
        ensures cost { (m : M) → slice_get self.old.machines node ≡ Some m → steps.new ≤ steps.old + M.size m }
    {
        let layout = &self.layout;
        instant(
            &layout.nodes[node as usize],
            &layout.cross,
            &self.routes,
            &self.exits,
            &self.inboxes,
            node,
            row,
            &mut self.machines[node as usize],
            &mut self.values,
            &mut self.outs,
            &mut self.buffers,
            &mut self.tracks,
            steps,
        );
        let shape = &self.shape;
        take_all(&shape.channels, &self.ports, &mut self.inboxes, node, true);
        self.executed[node as usize] += 1;
    }

    /// Its machines, the cells of its outputs, and its layout. The rest is dropped.
    pub fn into_ends(self) -> (Vec<M>, Vec<Track>, Layout)
        ensures machines { result.0.items ≡ self.machines }
        ensures tracks { result.1.items ≡ self.tracks }
        ensures layout { result.2 ≡ self.layout }
    {
        drop((self.shape, self.executed, self.inboxes, self.buffers));
        drop((self.routes, self.exits, self.ports));
        (self.machines, self.tracks, self.layout)
    }
}
