// An instant of a node: the step of its machine, and where its outputs go.
ghost use Rattle.std.specs.Prelude.{◌≡◌, ◌<◌, ◌≤◌, ◌+◌, ℕ, [], true, Some, length, slice_get, slice_index_or};
ghost use Rattle.lt_place.specs.declared.layout.Feed.{Feed as OfFeed};
ghost use Rattle.lt_base.specs.declared.value.Cell.TheVariants.{Absent};
ghost use Rattle.lt_net_bench.specs.Track.{track_at};
ghost use Rattle.lt_net_bench.specs.Executes.{PartRuns};
ghost use Rattle.lt_net_node.specs.Fed.{CanFeed};
ghost use Rattle.lt_net_bench.specs.Routes.{put_if, push_cell_if, filled, tracked, RoutesHaveOuts, RoutesHaveChannels, RoutesHavePlaces, ExitsHaveOuts, ExitsHaveRoom};

use crate::exit::Exit;
use crate::payload::Payload;
use crate::track::Track;
use lt_base::{Cell, Steps, Value};
use lt_link::Inbox;
use lt_machine::Machine;
use lt_net_node::Route;
use lt_net_node::stepping::run;
use lt_place::{Crossing, Part};
use std::sync::ledger::Ledger;

fn put_if(sends: bool, outs: &[Cell], route: Route, buffers: &mut Vec<Payload>)
    requires out { sends ≡ true → route.out < length outs.now }
    requires channel { sends ≡ true → route.channel < length buffers.old.items }
    requires place { sends ≡ true → route.place < length (slice_index_or buffers.old.items route.channel []) }
    ensures { buffers.new.items ≡ put_if sends outs.now route buffers.old.items }
{
    if sends {
        if let Cell::Here(value) = outs[route.out] {
            buffers[route.channel].put(route.place, value);
        }
    }
}

fn push_if(gives: bool, outs: &[Cell], out: usize, cells: &mut Vec<Track>, y: usize)
    requires out { gives ≡ true → out < length outs.now }
    requires output { gives ≡ true → y < length cells.old.items }
    requires room { gives ≡ true → length (track_at cells.old.items y).cells < (track_at cells.old.items y).room }
    ensures { cells.new.items ≡ push_cell_if gives y (slice_index_or outs.now out Absent) cells.old.items }
{
    if gives {
        cells[y].push(outs[out]);
    }
}

// Puts a node's outputs into the payloads of the channels that they cross on.
fn fill(cross: &[Crossing], routes: &[Route], node: u32, outs: &[Cell], buffers: &mut Vec<Payload>)
    requires routes { length routes.now ≡ length cross.now }
    requires outs { RoutesHaveOuts cross.now routes.now node (length outs.now) }
    requires channels { RoutesHaveChannels cross.now routes.now node buffers.old.items }
    requires places { RoutesHavePlaces cross.now routes.now node buffers.old.items }
    ensures { buffers.new.items ≡ filled cross.now routes.now node outs.now (length cross.now) buffers.old.items }
{
    for c in 0..cross.len() {
        put_if(cross[c].from == node, outs, routes[c], buffers);
    }
}

// Appends a node's outputs to the cells of the outputs of the whole.
fn append(exits: &[Exit], node: u32, outs: &[Cell], cells: &mut Vec<Track>)
    requires size { length exits.now ≡ length cells.old.items }
    requires outs { ExitsHaveOuts exits.now node (length outs.now) }
    requires room { ExitsHaveRoom exits.now node cells.old.items }
    ensures { cells.new.items ≡ tracked exits.now node outs.now (length exits.now) cells.old.items }
{
    for y in 0..exits.len() {
        let exit = exits[y];
        push_if(exit.node == node as usize, outs, exit.out, cells, y);
    }
}

/// Runs an instant of a node's part on its input row, and puts its outputs where they go.
pub(crate) fn instant<M: Machine, L: Ledger>(
    part: &Part,
    cross: &[Crossing],
    routes: &[Route],
    exits: &[Exit],
    inboxes: &[Inbox],
    node: u32,
    row: &[Value],
    machine: &mut M,
    values: &mut Vec<Value>,
    outs: &mut Vec<Cell>,
    buffers: &mut Vec<Payload>,
    tracks: &mut Vec<Track>,
    steps: &mut Steps<L>,
)
    requires room { length part.now.feeds ≤ length values.old.items }
    requires room_out { length part.now.outs ≤ length outs.old.items }
    requires there { (x : ℕ) (d : OfFeed) → slice_get part.now.feeds x ≡ Some d → CanFeed routes.now inboxes.now row.now d }
    requires left { 0 < M.left machine.old }
    requires wide { M.inputs machine.old ≡ length part.now.feeds }
    requires long { M.outputs machine.old ≡ length part.now.outs }
    requires routes { length routes.now ≡ length cross.now }
    requires crossing_outs { RoutesHaveOuts cross.now routes.now node (length part.now.outs) }
    requires channels { RoutesHaveChannels cross.now routes.now node buffers.old.items }
    requires places { RoutesHavePlaces cross.now routes.now node buffers.old.items }
    requires exits { length exits.now ≡ length tracks.old.items }
    requires exit_outs { ExitsHaveOuts exits.now node (length part.now.outs) }
    requires track_room { ExitsHaveRoom exits.now node tracks.old.items }
    ensures runs { PartRuns M.Machine part.now cross.now routes.now exits.now inboxes.now row.now node
        machine.old machine.new buffers.old.items buffers.new.items tracks.old.items tracks.new.items }
    ensures values { length values.new.items ≡ length values.old.items }
    ensures outs { length outs.new.items ≡ length outs.old.items }
    ensures size { M.size machine.new ≡ M.size machine.old }
    ensures cost { steps.new ≤ steps.old + M.size machine.old }
{
    let front = &mut outs[..part.outs.len()];
    run(part, routes, inboxes, row, machine, values, front, steps);
    fill(cross, routes, node, front, buffers);
    append(exits, node, front, tracks);
}
