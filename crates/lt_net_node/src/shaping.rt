// The shape of a network: its nodes and channels, by the layout and the protocol.
ghost use Rattle.std.specs.Prelude.{◌≡◌, ◌<◌, ◌^◌, [], false, length, IfOk, OnOk, Ok};
ghost use Rattle.std.specs.List.{list_any};
ghost use Rattle.lt_arch.specs.declared.timing.Protocol.TheVariants.{BackPressure as OnBackPressure};
ghost use Rattle.lt_norm.specs.Flat.{Originated};
ghost use Rattle.lt_place.specs.Layout.{IsPlaced};
ghost use Rattle.lt_net_node.specs.Layout.{joins};
ghost use Rattle.lt_net_node.specs.Channels.{has_channel, channel, push_channel_if, chans_from, chans_below, all_chans, IsShapeOf};

use lt_arch::laws::names_differ;
use lt_arch::{Chan, ChanKind, Protocol, Shape, Timing};
use lt_base::{List, Memory};
use lt_place::{Crossing, Layout};
use std::alloc::Global;

/// Whether something crosses from one node to another.
pub fn is_crossed(cross: &[Crossing], from: u32, to: u32) -> bool
    ensures { result ≡ list_any (joins from to) cross.now }
{
    cross
        .iter()
        .any(|crossing| crossing.from == from && crossing.to == to)
}

// Whether a channel of the kind from one node to another is used: to carry what crosses, or to acknowledge it.
fn is_used(cross: &[Crossing], kind: ChanKind, from: u32, to: u32) -> bool
    ensures { result ≡ has_channel cross.now OnBackPressure kind from to }
{
    match kind {
        ChanKind::Data => is_crossed(cross, from, to),
        ChanKind::Ack => is_crossed(cross, to, from),
    }
}

fn has_channel(cross: &[Crossing], protocol: Protocol, kind: ChanKind, from: u32, to: u32) -> bool
    ensures { result ≡ has_channel cross.now protocol kind from to }
{
    match protocol {
        Protocol::BackPressure => is_used(cross, kind, from, to),
        Protocol::TimeBased => match kind {
            ChanKind::Data => from != to,
            ChanKind::Ack => false,
        },
    }
}

// Where nothing is appended, no memory is wanted.
fn push_if(has: bool, chan: Chan, channels: &mut List<Chan>) -> Result<(), Memory>
    ensures pushed { OnOk result (channels.new ≡ push_channel_if has chan channels.old) }
    ensures nothing { has ≡ false → result ≡ Ok tt }
{
    if has {
        channels.push(chan)?;
    }
    Ok(())
}

// Appends the channels of a kind from one node.
fn add_from(
    cross: &[Crossing],
    protocol: Protocol,
    kind: ChanKind,
    from: u32,
    nodes: u32,
    channels: &mut List<Chan>,
) -> Result<(), Memory>
    ensures { OnOk result (channels.new ≡ chans_from (has_channel cross.now protocol) kind from nodes channels.old) }
{
    for to in 0..nodes {
        let has = has_channel(cross, protocol, kind, from, to);
        push_if(has, Chan { from, to, kind }, channels)?;
    }
    Ok(())
}

// Appends the channels of a kind.
fn add_kind(
    cross: &[Crossing],
    protocol: Protocol,
    kind: ChanKind,
    nodes: u32,
    channels: &mut List<Chan>,
) -> Result<(), Memory>
    ensures { OnOk result (channels.new ≡ chans_below (has_channel cross.now protocol) kind nodes nodes channels.old) }
{
    for from in 0..nodes {
        add_from(cross, protocol, kind, from, nodes, channels)?;
    }
    Ok(())
}

pub(crate) fn channels_of(
    alloc: Global,
    cross: &[Crossing],
    protocol: Protocol,
    nodes: u32,
) -> Result<List<Chan>, Memory>
    ensures { IfOk result (λ channels. channels ≡ all_chans (has_channel cross.now protocol) nodes) }
{
    let mut channels = List::new(alloc);
    add_kind(cross, protocol, ChanKind::Data, nodes, &mut channels)?;
    add_kind(cross, protocol, ChanKind::Ack, nodes, &mut channels)?;
    Ok(channels)
}

/// The nodes of a placed layout and the channels between them. Under back-pressure there is a data channel from each node to each
/// node that reads a variable of it, and an acknowledgement channel the other way; under the time-based protocol there is a data
/// channel from each node to each other. Data channels come first, by sender and then receiver; acknowledgement channels follow, by
/// their own sender and then receiver.
pub fn shape_of(alloc: Global, layout: &Layout, timing: &Timing) -> Result<Shape, Memory>
    requires placed { (f : Originated) × IsPlaced f layout.now }
    requires numbered { length layout.now.names < 2 ^ 32 }
    ensures { IfOk result (IsShapeOf layout.now timing.now.protocol) }
{
    names_differ();
    let nodes = layout.names.copy()?;
    let count = nodes.len() as u32;
    let channels = channels_of(alloc, &layout.cross, timing.protocol, count)?;
    Ok(Shape { nodes, channels })
}
