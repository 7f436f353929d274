// The nodes with which a node exchanges messages, and what these carry.

ghost use Rattle.std.specs.Prelude.{◌≡◌, ◌<◌, ◌^◌, ◌&&◌, ◌==◌, length, map, filter, IfOk};
ghost use Rattle.std.specs.List.{All};
ghost use Rattle.lt_arch.specs.Readers.{is_data};
ghost use Rattle.lt_c.specs.Text.{name_at};
ghost use Rattle.lt_net_node.specs.Layout.{joins};
ghost use Rattle.lt_c_node.specs.NodeOf.{carried_by, carried, values_between, is_answer, brings_answers, AreSenders, AreReceivers, AreLinksOf, StartsBelow};

use crate::part::{given_slot, part_of};
use lt_arch::{Chan, ChanKind};
use lt_base::{Decl, List, Memory, Name};
use lt_c_heads::{Carried, Correspondence, Peer};
use lt_place::{Crossing, Layout, Part};
use std::alloc::Global;

// The name of a declared variable, and of another number nothing.
fn name_of(alloc: Global, decls: &[Decl], x: u32) -> Result<Name, Memory>
    ensures { IfOk result (λ name. name ≡ name_at decls.now x) }
{
    if (x as usize) < decls.len() {
        decls[x as usize].name.copy()
    } else {
        Name::from_str(alloc, "")
    }
}

fn carried_by(alloc: Global, part: &Part, crossing: &Crossing) -> Result<Carried, Memory>
    ensures { IfOk result (λ v. v ≡ carried_by part.now crossing.now) }
{
    let slot = given_slot(part, crossing.var);
    let meant = name_of(alloc, &part.flat.func.decls, slot)?;
    Ok(Carried {
        from_slot: slot,
        first: crossing.first,
        meant,
    })
}

fn carried(alloc: Global, layout: &Layout, crossing: &Crossing) -> Result<Carried, Memory>
    requires { crossing.now.from < length layout.now.nodes }
    ensures { IfOk result (λ v. v ≡ carried layout.now crossing.now) }
{
    carried_by(alloc, part_of(layout, crossing.from as usize), crossing)
}

// What those of these crossings carry that lead from one node to another.
fn carried_among(
    alloc: Global,
    layout: &Layout,
    cross: &[Crossing],
    i: u32,
    j: u32,
) -> Result<List<Carried>, Memory>
    requires starts { All (StartsBelow (length layout.now.nodes)) cross.now }
    ensures { IfOk result (λ all. all ≡ map (carried layout.now) (filter (joins i j) cross.now)) }
{
    let mut all = List::new(alloc);
    'crossings: for crossing in cross {
        if crossing.from == i && crossing.to == j {
            all.push(carried(alloc, layout, crossing)?)?;
        }
    }
    Ok(all)
}

// Another node, with the values from one node to another.
fn peer(alloc: Global, layout: &Layout, number: u32, i: u32, j: u32) -> Result<Peer, Memory>
    requires starts { All (StartsBelow (length layout.now.nodes)) layout.now.cross }
    requires few { length layout.now.cross < 2 ^ 32 }
    ensures number { IfOk result (λ p. p.number ≡ number) }
    ensures values { IfOk result (λ p. p.values ≡ values_between layout.now i j) }
{
    let values = carried_among(alloc, layout, &layout.cross, i, j)?;
    Ok(Peer { number, values })
}

fn carries_data(kind: ChanKind) -> bool
    ensures { result ≡ is_data kind }
{
    match kind {
        ChanKind::Data => true,
        ChanKind::Ack => false,
    }
}

fn is_answer(kind: ChanKind) -> bool
    ensures { result ≡ is_answer kind }
{
    match kind {
        ChanKind::Data => false,
        ChanKind::Ack => true,
    }
}

// The nodes whose data comes.
fn senders_of(
    alloc: Global,
    layout: &Layout,
    channels: &[Chan],
    n: u32,
) -> Result<List<Peer>, Memory>
    requires starts { All (StartsBelow (length layout.now.nodes)) layout.now.cross }
    requires few { length layout.now.cross < 2 ^ 32 }
    ensures { IfOk result (AreSenders layout.now channels.now n) }
{
    let mut all = List::new(alloc);
    'channels: for channel in channels {
        if carries_data(channel.kind) && channel.to == n {
            all.push(peer(alloc, layout, channel.from, channel.from, n)?)?;
        }
    }
    Ok(all)
}

// The nodes to which data goes.
fn receivers_of(
    alloc: Global,
    layout: &Layout,
    channels: &[Chan],
    n: u32,
) -> Result<List<Peer>, Memory>
    requires starts { All (StartsBelow (length layout.now.nodes)) layout.now.cross }
    requires few { length layout.now.cross < 2 ^ 32 }
    ensures { IfOk result (AreReceivers layout.now channels.now n) }
{
    let mut all = List::new(alloc);
    'channels: for channel in channels {
        if carries_data(channel.kind) && channel.from == n {
            all.push(peer(alloc, layout, channel.to, n, channel.to)?)?;
        }
    }
    Ok(all)
}

// The nodes from which acknowledgements come.
fn answerers_of(alloc: Global, channels: &[Chan], n: u32) -> Result<List<u32>, Memory>
    ensures { IfOk result (λ all. all ≡ map (λ ch. ch.from) (filter (brings_answers n) channels.now)) }
{
    let mut all = List::new(alloc);
    'channels: for channel in channels {
        if is_answer(channel.kind) && channel.to == n {
            all.push(channel.from)?;
        }
    }
    Ok(all)
}

/// The nodes with which a node exchanges messages over these channels.
pub(crate) fn links_of(
    alloc: Global,
    layout: &Layout,
    channels: &[Chan],
    n: u32,
) -> Result<Correspondence, Memory>
    requires starts { All (StartsBelow (length layout.now.nodes)) layout.now.cross }
    requires few { length layout.now.cross < 2 ^ 32 }
    ensures { IfOk result (AreLinksOf layout.now channels.now n) }
{
    let senders = senders_of(alloc, layout, channels, n)?;
    let receivers = receivers_of(alloc, layout, channels, n)?;
    let answerers = answerers_of(alloc, channels, n)?;
    Ok(Correspondence {
        senders,
        receivers,
        answerers,
    })
}
