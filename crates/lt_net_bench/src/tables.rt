// The tables of where values go.
ghost use Rattle.std.specs.Prelude.{◌≡◌, ◌<◌, ◌==◌, ℕ, map, length, position, IfOk, slice_index_or};
ghost use Rattle.std.specs.List.{count_by};
ghost use Rattle.lt_place.specs.Layout.{no_crossing};
ghost use Rattle.lt_net_node.specs.Layout.{joins};
ghost use Rattle.lt_net_node.specs.Local.{firsts};
ghost use Rattle.lt_net_node.specs.Payloads.{carries_between};
ghost use Rattle.lt_net_bench.specs.Starts.{place_among, between_in, route_to, gives_out, giver, exit_for};

use crate::exit::Exit;
use crate::literals::carries_data;
use lt_arch::{Chan, Shape};
use lt_base::Memory;
use lt_net_node::Route;
use lt_place::{Crossing, Layout, Part};
use std::alloc::Global;

fn position_of(outs: &[u32], variable: u32) -> Option<usize>
    ensures { result ≡ position (λ u. u == variable) outs.now }
{
    outs.iter().position(|out| *out == variable)
}

fn place_among(outs: &[u32], variable: u32) -> usize
    ensures { result ≡ place_among outs.now variable }
{
    position_of(outs, variable).unwrap_or(0)
}

fn is_between(channel: &Chan, from: u32, to: u32) -> bool
    ensures { result ≡ carries_between from to channel.now }
{
    carries_data(channel.kind) && (channel.from == from && channel.to == to)
}

fn position_between(channels: &[Chan], from: u32, to: u32) -> Option<usize>
    ensures { result ≡ position (carries_between from to) channels.now }
{
    channels
        .iter()
        .position(|channel| is_between(channel, from, to))
}

fn channel_between(channels: &[Chan], from: u32, to: u32) -> usize
    ensures { result ≡ between_in channels.now from to }
{
    position_between(channels, from, to).unwrap_or(channels.len())
}

// How many of these crossings lead from one node to another.
fn count_between(cross: &[Crossing], from: u32, to: u32) -> usize
    ensures { result ≡ count_by (joins from to) cross.now }
{
    cross
        .iter()
        .filter(|crossing| crossing.from == from && crossing.to == to)
        .count()
}

fn route_to(layout: &Layout, channels: &[Chan], c: usize) -> Route
    requires crossing { c < length layout.now.cross }
    requires sender { (slice_index_or layout.now.cross c no_crossing).from < length layout.now.nodes }
    ensures { result ≡ route_to layout.now channels.now c }
{
    let cross: &[Crossing] = &layout.cross;
    let crossing = cross[c];
    let sender = &layout.nodes[crossing.from as usize];
    Route {
        out: place_among(&sender.outs, crossing.var),
        channel: channel_between(channels, crossing.from, crossing.to),
        place: count_between(&cross[..c], crossing.from, crossing.to),
    }
}

/// A route for each crossing.
pub fn routes(alloc: Global, layout: &Layout, shape: &Shape) -> Result<Vec<Route>, Memory>
    requires senders { (c : ℕ) → c < length layout.now.cross → (slice_index_or layout.now.cross c no_crossing).from < length layout.now.nodes }
    ensures { IfOk result (λ routes. routes.items ≡ firsts (route_to layout.now shape.now.channels) (length layout.now.cross)) }
{
    let count = layout.cross.len();
    let mut routes = Vec::with_capacity(alloc, count)?;
    for c in 0..count {
        routes.push(route_to(layout, &shape.channels, c))?;
    }
    Ok(routes)
}

fn gives_out(part: &Part, variable: u32) -> bool
    ensures { result ≡ gives_out variable part.now }
{
    part.outs.iter().any(|out| *out == variable)
}

fn position_of_giver(nodes: &[Part], variable: u32) -> Option<usize>
    ensures { result ≡ position (gives_out variable) nodes.now }
{
    nodes.iter().position(|part| gives_out(part, variable))
}

#[tactic(auto, using(crate::proofs::FirstTables::giver_within))]
fn giver(nodes: &[Part], variable: u32) -> usize
    requires { 0 < length nodes.now }
    ensures is { result ≡ giver nodes.now variable }
    ensures within { result < length nodes.now }
{
    position_of_giver(nodes, variable).unwrap_or(0)
}

fn exit_for(nodes: &[Part], variable: u32) -> Exit
    requires { 0 < length nodes.now }
    ensures { result ≡ exit_for nodes.now variable }
{
    let node = giver(nodes, variable);
    Exit {
        node,
        out: place_among(&nodes[node].outs, variable),
    }
}

/// An exit for each output.
pub fn exits(alloc: Global, layout: &Layout) -> Result<Vec<Exit>, Memory>
    requires { 0 < length layout.now.nodes }
    ensures { IfOk result (λ exits. exits.items ≡ map (exit_for layout.now.nodes) layout.now.outs) }
{
    let nodes: &[Part] = &layout.nodes;
    let outs: &[u32] = &layout.outs;
    let mut exits = Vec::with_capacity(alloc, outs.len())?;
    for variable in outs {
        exits.push(exit_for(nodes, *variable))?;
    }
    Ok(exits)
}
