// The table of which channels lead to each node, and from it.
ghost use Rattle.std.specs.Prelude.{◌≡◌, ◌<◌, ◌+◌, ◌*◌, ◌^◌, ◌==◌, ◌&&◌, false, length, IfOk, OnOk, Ok};
ghost use Rattle.lt_arch.specs.Readers.{is_data, node_count, chan_count};
ghost use Rattle.lt_base.specs.Truths.{same_truth};
ghost use Rattle.lt_link.specs.Ports.{is_to, is_from, push_number, numbers, node_ports_of, all_ports};

use crate::ports::Ports;
use lt_arch::{Chan, ChanKind, Shape};
use lt_base::{List, Memory};
use std::alloc::Global;

fn carries_data(kind: ChanKind) -> bool
    ensures { result ≡ is_data kind }
{
    match kind {
        ChanKind::Data => true,
        ChanKind::Ack => false,
    }
}

fn is_incoming(channel: &Chan, node: u32, kind: bool) -> bool
    ensures { result ≡ ((channel.now.to == node) && same_truth kind (is_data channel.now.kind)) }
{
    channel.to == node && carries_data(channel.kind) == kind
}

fn is_outgoing(channel: &Chan, node: u32, kind: bool) -> bool
    ensures { result ≡ ((channel.now.from == node) && same_truth kind (is_data channel.now.kind)) }
{
    channel.from == node && carries_data(channel.kind) == kind
}

// Where nothing is appended, no memory is wanted.
fn push_number(has: bool, number: u32, numbers: &mut List<u32>) -> Result<(), Memory>
    ensures pushed { OnOk result (numbers.new ≡ push_number has number numbers.old) }
    ensures nothing { has ≡ false → result ≡ Ok tt }
{
    if has {
        numbers.push(number)?;
    }
    Ok(())
}

fn numbers_to(alloc: Global, channels: &[Chan], node: u32, kind: bool) -> Result<List<u32>, Memory>
    requires { length channels.now < 2 ^ 32 }
    ensures { IfOk result (λ list. list ≡ numbers (is_to channels.now node kind) (length channels.now)) }
{
    let mut list = List::new(alloc);
    for (c, channel) in channels.iter().enumerate() {
        push_number(is_incoming(channel, node, kind), c as u32, &mut list)?;
    }
    Ok(list)
}

fn numbers_from(
    alloc: Global,
    channels: &[Chan],
    node: u32,
    kind: bool,
) -> Result<List<u32>, Memory>
    requires { length channels.now < 2 ^ 32 }
    ensures { IfOk result (λ list. list ≡ numbers (is_from channels.now node kind) (length channels.now)) }
{
    let mut list = List::new(alloc);
    for (c, channel) in channels.iter().enumerate() {
        push_number(is_outgoing(channel, node, kind), c as u32, &mut list)?;
    }
    Ok(list)
}

fn ports_of(alloc: Global, channels: &[Chan], node: u32) -> Result<Ports, Memory>
    requires { length channels.now < 2 ^ 32 }
    ensures { IfOk result (λ ports. ports ≡ node_ports_of channels.now node) }
{
    let data_in = numbers_to(alloc, channels, node, true)?;
    let data_out = numbers_from(alloc, channels, node, true)?;
    let acks_in = numbers_to(alloc, channels, node, false)?;
    let acks_out = numbers_from(alloc, channels, node, false)?;
    Ok(Ports {
        data_in,
        data_out,
        acks_in,
        acks_out,
    })
}

/// The channels of each node.
pub fn all_ports(alloc: Global, shape: &Shape) -> Result<List<Ports>, Memory>
    requires { 2 * (node_count shape.now + chan_count shape.now) < 2 ^ 32 }
    ensures { IfOk result (λ ports. ports ≡ all_ports shape.now.channels (node_count shape.now)) }
{
    let mut ports = List::new(alloc);
    for node in 0..shape.nodes.len() {
        ports.push(ports_of(alloc, &shape.channels, node as u32)?)?;
    }
    Ok(ports)
}
