// What nodes and channels have before the first event.
ghost use Rattle.std.specs.Prelude.{◌≡◌, ◌<◌, ◌+◌, ◌*◌, ◌^◌, max, map, length, All, IfOk};
ghost use Rattle.lt_arch.specs.Readers.{node_count, chan_count};
ghost use Rattle.lt_norm.specs.Flat.{Originated};
ghost use Rattle.lt_place.specs.Layout.{IsPlaced};
ghost use Rattle.lt_net_bench.specs.Initial.{IsInitial};
ghost use Rattle.lt_net_node.specs.Local.{firsts};
ghost use Rattle.lt_link.specs.Ports.{node_ports_of};
ghost use Rattle.lt_net_bench.specs.Starts.{literals_on, first_inbox, route_to, exit_for, most_fed, most_given, IsBlank};

use crate::exit::Exit;
use crate::literals::{buffers, inboxes};
use crate::payload::Payload;
use crate::room::{counts, outs, tracks, values};
use crate::tables::{exits, routes};
use crate::track::Track;
use lt_arch::Shape;
use lt_base::{Cell, List, Memory, Value};
use lt_link::{Inbox, Ports, all_ports};
use lt_net_node::Route;
use lt_place::Layout;
use std::alloc::Global;

/// An inbox for each channel, and its sender's payload.
#[derive(Drop)]
pub struct Ends {
    pub inboxes: Vec<Inbox>,
    pub buffers: Vec<Payload>,
}

/// Where the values of crossings and of outputs go, and the channels of each node.
#[derive(Drop)]
pub struct Tables {
    pub routes: Vec<Route>,
    pub exits: Vec<Exit>,
    pub ports: List<Ports>,
}

/// Room for the cells of each output, for a message or a row, and for a row of outputs.
#[derive(Drop)]
pub struct Space {
    pub tracks: Vec<Track>,
    pub values: Vec<Value>,
    pub outs: Vec<Cell>,
}

/// All that nodes and channels have beside machines and controllers.
#[derive(Drop)]
pub struct Initial {
    pub executed: Vec<u32>,
    pub ends: Ends,
    pub tables: Tables,
    pub space: Space,
}

fn ends_of(alloc: Global, layout: &Layout, shape: &Shape) -> Result<Ends, Memory>
    ensures inboxes { IfOk result (λ ends. ends.inboxes.items ≡ map (first_inbox layout.now.cross) shape.now.channels) }
    ensures buffers { IfOk result (λ ends. ends.buffers.items ≡ map (literals_on layout.now.cross) shape.now.channels) }
{
    let inboxes = inboxes(alloc, layout, shape)?;
    let buffers = buffers(alloc, layout, shape)?;
    Ok(Ends { inboxes, buffers })
}

fn tables_of(alloc: Global, layout: &Layout, shape: &Shape) -> Result<Tables, Memory>
    requires placed { (f : Originated) × IsPlaced f layout.now }
    requires numbered { 2 * (node_count shape.now + chan_count shape.now) < 2 ^ 32 }
    ensures routes { IfOk result (λ tables. tables.routes.items ≡ firsts (route_to layout.now shape.now.channels) (length layout.now.cross)) }
    ensures exits { IfOk result (λ tables. tables.exits.items ≡ map (exit_for layout.now.nodes) layout.now.outs) }
    ensures ports { IfOk result (λ tables. tables.ports ≡ firsts (node_ports_of shape.now.channels) (node_count shape.now)) }
{
    let routes = routes(alloc, layout, shape)?;
    let exits = exits(alloc, layout)?;
    let ports = all_ports(alloc, shape)?;
    Ok(Tables {
        routes,
        exits,
        ports,
    })
}

fn space_for(alloc: Global, layout: &Layout, rows: u32) -> Result<Space, Memory>
    ensures track_count { IfOk result (λ space. length space.tracks.items ≡ length layout.now.outs) }
    ensures blank { IfOk result (λ space. All (IsBlank rows) space.tracks.items) }
    ensures values { IfOk result (λ space. length space.values.items ≡ max (length layout.now.cross) (most_fed layout.now.nodes)) }
    ensures outs { IfOk result (λ space. length space.outs.items ≡ most_given layout.now.nodes) }
{
    let tracks = tracks(alloc, layout, rows)?;
    let values = values(alloc, layout)?;
    let outs = outs(alloc, layout)?;
    Ok(Space {
        tracks,
        values,
        outs,
    })
}

impl Initial {
    /// What a layout's nodes and channels have where so many rows of inputs come.
    pub fn of(alloc: Global, layout: &Layout, shape: &Shape, rows: u32) -> Result<Initial, Memory>
        requires placed { (f : Originated) × IsPlaced f layout.now }
        requires numbered { 2 * (node_count shape.now + chan_count shape.now) < 2 ^ 32 }
        ensures { IfOk result (IsInitial layout.now shape.now rows) }
    {
        let executed = counts(alloc, shape)?;
        let ends = ends_of(alloc, layout, shape)?;
        let tables = tables_of(alloc, layout, shape)?;
        let space = space_for(alloc, layout, rows)?;
        Ok(Initial {
            executed,
            ends,
            tables,
            space,
        })
    }
}
