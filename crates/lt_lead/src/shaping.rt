// The shape of a network where a node leads.
ghost use Rattle.std.specs.Prelude.{◌≡◌, ◌<◌, ◌^◌, length, IfOk, OnOk};
ghost use Rattle.lt_arch.specs.declared.chan.ChanKind.TheVariants.{Data};
ghost use Rattle.lt_norm.specs.Flat.{Originated};
ghost use Rattle.lt_place.specs.Layout.{IsPlaced};
ghost use Rattle.lt_net_node.specs.Channels.{channel, push_channel_if, chans_from, all_chans};
ghost use Rattle.lt_lead.specs.Channels.{is_leader_channel, IsLeadShapeOf};

use lt_arch::laws::names_differ;
use lt_arch::{Chan, ChanKind, Shape};
use lt_base::{List, Memory};
use lt_net_node::is_crossed;
use lt_place::{Crossing, Layout};
use std::alloc::Global;

fn leads_to(cross: &[Crossing], leader: u32, from: u32, to: u32) -> bool
    ensures { result ≡ is_leader_channel cross.now leader Data from to }
{
    from != to && (from == leader || is_crossed(cross, from, to))
}

// Appends a data channel, or nothing.
fn add_if(has: bool, from: u32, to: u32, channels: &mut List<Chan>) -> Result<(), Memory>
    ensures { OnOk result (channels.new ≡ push_channel_if has (channel Data from to) channels.old) }
{
    if has {
        let kind = ChanKind::Data;
        channels.push(Chan { from, to, kind })?;
    }
    Ok(())
}

// Appends the channels from one node.
fn add_from(
    cross: &[Crossing],
    leader: u32,
    from: u32,
    nodes: u32,
    channels: &mut List<Chan>,
) -> Result<(), Memory>
    ensures { OnOk result (channels.new ≡ chans_from (is_leader_channel cross.now leader) Data from nodes channels.old) }
{
    for to in 0..nodes {
        add_if(leads_to(cross, leader, from, to), from, to, channels)?;
    }
    Ok(())
}

fn channels_of(
    alloc: Global,
    cross: &[Crossing],
    leader: u32,
    nodes: u32,
) -> Result<List<Chan>, Memory>
    ensures { IfOk result (λ channels. channels ≡ all_chans (is_leader_channel cross.now leader) nodes) }
{
    let mut channels = List::new(alloc);
    for from in 0..nodes {
        add_from(cross, leader, from, nodes, &mut channels)?;
    }
    Ok(channels)
}

/// The nodes of a placed layout and the channels between them, where the node `leader` paces the rounds: a data channel from the leader
/// to each other node, and one wherever a variable crosses, by sender and then receiver.
pub fn lead_shape(alloc: Global, layout: &Layout, leader: u32) -> Result<Shape, Memory>
    requires placed { (f : Originated) × IsPlaced f layout.now }
    requires leader { leader < length layout.now.names }
    requires numbered { length layout.now.names < 2 ^ 32 }
    ensures { IfOk result (IsLeadShapeOf layout.now leader) }
{
    names_differ();
    let nodes = layout.names.copy()?;
    let count = nodes.len() as u32;
    let channels = channels_of(alloc, &layout.cross, leader, count)?;
    Ok(Shape { nodes, channels })
}
