// The messages before the first ones: the literals of what crosses.
ghost use Rattle.std.specs.Prelude.{◌≡◌, map, filter, IfOk};
ghost use Rattle.lt_base.specs.Value.{ty_of};
ghost use Rattle.lt_arch.specs.Readers.{is_data};
ghost use Rattle.lt_net_node.specs.Layout.{joins};
ghost use Rattle.lt_net_bench.specs.Starts.{literals_on, types_on, kinds_for, first_inbox};

use crate::payload::Payload;
use lt_arch::{Chan, ChanKind, Shape};
use lt_base::{List, Memory, Ty, Value};
use lt_link::Inbox;
use lt_place::{Crossing, Layout};
use std::alloc::Global;

pub(crate) fn carries_data(kind: ChanKind) -> bool
    ensures { result ≡ is_data kind }
{
    match kind {
        ChanKind::Data => true,
        ChanKind::Ack => false,
    }
}

fn type_of(value: Value) -> Ty
    ensures { result ≡ ty_of value }
{
    match value {
        Value::Int(_) => Ty::Int,
        Value::Bool(_) => Ty::Bool,
    }
}

// The literals of the crossings from one node to another.
fn literals_between(
    alloc: Global,
    cross: &[Crossing],
    from: u32,
    to: u32,
) -> Result<Vec<Value>, Memory>
    ensures { IfOk result (λ values. values.items ≡ map (λ cr. cr.first) (filter (joins from to) cross.now)) }
{
    let mut values = Vec::new(alloc);
    for crossing in cross {
        if crossing.from == from && crossing.to == to {
            values.push(crossing.first)?;
        }
    }
    Ok(values)
}

fn literals(alloc: Global, cross: &[Crossing], channel: &Chan) -> Result<Vec<Value>, Memory>
    ensures { IfOk result (λ values. values.items ≡ literals_on cross.now channel.now) }
{
    if carries_data(channel.kind) {
        return literals_between(alloc, cross, channel.from, channel.to);
    }
    Ok(Vec::new(alloc))
}

fn types_of(alloc: Global, values: &[Value]) -> Result<List<Ty>, Memory>
    ensures { IfOk result (λ types. types ≡ map ty_of values.now) }
{
    let mut types = List::new(alloc);
    for value in values {
        types.push(type_of(*value))?;
    }
    Ok(types)
}

// The types of the payloads of a channel.
fn types(alloc: Global, cross: &[Crossing], channel: &Chan) -> Result<List<Ty>, Memory>
    ensures { IfOk result (λ types. types ≡ types_on cross.now channel.now) }
{
    let values = literals(alloc, cross, channel)?;
    types_of(alloc, &values)
}

/// For each channel the types of its payloads, as a fabric is opened with.
pub fn kinds_of(alloc: Global, layout: &Layout, shape: &Shape) -> Result<List<List<Ty>>, Memory>
    ensures { IfOk result (λ kinds. kinds ≡ kinds_for layout.now shape.now) }
{
    let mut kinds = List::new(alloc);
    let channels: &[Chan] = &shape.channels;
    for channel in channels {
        kinds.push(types(alloc, &layout.cross, channel)?)?;
    }
    Ok(kinds)
}

fn first_inbox(alloc: Global, cross: &[Crossing], channel: &Chan) -> Result<Inbox, Memory>
    ensures { IfOk result (λ inbox. inbox ≡ first_inbox cross.now channel.now) }
{
    let values = literals(alloc, cross, channel)?;
    Ok(Inbox::new(List::of(values), carries_data(channel.kind)))
}

/// An inbox for each channel. Those of data channels have the literals, and are fresh.
pub fn inboxes(alloc: Global, layout: &Layout, shape: &Shape) -> Result<Vec<Inbox>, Memory>
    ensures { IfOk result (λ inboxes. inboxes.items ≡ map (first_inbox layout.now.cross) shape.now.channels) }
{
    let channels: &[Chan] = &shape.channels;
    let mut inboxes = Vec::with_capacity(alloc, channels.len())?;
    for channel in channels {
        inboxes.push(first_inbox(alloc, &layout.cross, channel)?)?;
    }
    Ok(inboxes)
}

/// A payload for each channel, of its types.
pub fn buffers(alloc: Global, layout: &Layout, shape: &Shape) -> Result<Vec<Payload>, Memory>
    ensures { IfOk result (λ buffers. buffers.items ≡ map (literals_on layout.now.cross) shape.now.channels) }
{
    let channels: &[Chan] = &shape.channels;
    let mut buffers = Vec::with_capacity(alloc, channels.len())?;
    for channel in channels {
        let values = literals(alloc, &layout.cross, channel)?;
        buffers.push(Payload::of(List::of(values)))?;
    }
    Ok(buffers)
}
