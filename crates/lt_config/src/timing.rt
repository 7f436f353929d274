// The timing of a setup, where it has no fault.
ghost use Rattle.std.specs.Prelude.{◌≡◌, ◌≤◌, ◌<◌, ◌++◌, length, map, IfOk, OnOk, None, string_bytes};
ghost use Rattle.toml.specs.View.{table_view};
ghost use Rattle.lt_arch.specs.Pairs.{ordered_pairs, pairs_from};
ghost use Rattle.lt_arch.specs.NodeNames.{names_of as node_names};
ghost use Rattle.lt_config.specs.Faults.{first_fault};
ghost use Rattle.lt_config.specs.Setup.{setup_nodes, node_numbers, pair_numbers, pair_name, most_delay, protocol_of, setup_of};
ghost use Rattle.lt_config.specs.Reading.{numbers_of, delays_of};

use crate::judge::is_time_based;
use crate::keys::Key;
use crate::leading::paced_send;
use crate::numbers::{bounds_of, countdown_of, most_delay, own_or_plain};
use lt_arch::{NamedNode, NodeTime, PairTime, Protocol, Timing};
use lt_base::{List, Memory};
use std::alloc::{AllocError, Global};
use toml::Table;

fn node_time(table: &Table, name: &str) -> NodeTime
    requires { first_fault (table_view table.now) ≡ None }
    ensures { numbers_of result ≡ node_numbers (table_view table.now) name.now }
{
    let (tmin, tmax) = bounds_of(own_or_plain(table, Key::Periods, Key::Period, name));
    let send = paced_send(table, name);
    let execute = countdown_of(own_or_plain(table, Key::Executes, Key::Execute, name));
    NodeTime {
        tmin,
        tmax,
        send,
        execute,
    }
}

fn node_times(alloc: Global, table: &Table, nodes: &[NamedNode]) -> Result<List<NodeTime>, Memory>
    requires { first_fault (table_view table.now) ≡ None }
    ensures { IfOk result (λ times. map numbers_of times ≡ map (node_numbers (table_view table.now)) (node_names nodes.now)) }
{
    let mut times = List::new(alloc);
    for node in nodes {
        times.push(node_time(table, node.name.as_str()))?;
    }
    Ok(times)
}

fn pair_name(alloc: Global, from: &str, to: &str) -> Result<String, AllocError>
    ensures { IfOk result (λ name. string_bytes name ≡ pair_name from.now to.now) }
{
    let mut name = String::from_str(alloc, from)?;
    name.push_str(">")?;
    name.push_str(to)?;
    Ok(name)
}

fn pair_time(
    alloc: Global,
    table: &Table,
    nodes: &[NamedNode],
    from: u32,
    to: u32,
) -> Result<PairTime, Memory>
    requires none { first_fault (table_view table.now) ≡ None }
    requires from { from < length nodes.now }
    requires to { to < length nodes.now }
    ensures { IfOk result (λ pair. delays_of pair ≡ pair_numbers (table_view table.now) (node_names nodes.now) (from, to)) }
{
    let sender = nodes[from as usize].name.as_str();
    let receiver = nodes[to as usize].name.as_str();
    let name = pair_name(alloc, sender, receiver)?;
    let own = own_or_plain(table, Key::Delays, Key::Delay, name.as_str());
    let (dmin, dmax) = bounds_of(own);
    Ok(PairTime {
        from,
        to,
        dmin,
        dmax,
    })
}

// Appends the pairs from a node.
fn push_pairs(
    alloc: Global,
    table: &Table,
    nodes: &[NamedNode],
    from: u32,
    pairs: &mut List<PairTime>,
) -> Result<(), Memory>
    requires none { first_fault (table_view table.now) ≡ None }
    requires from { from < length nodes.now }
    requires few { length nodes.now ≤ 32 }
    ensures { OnOk result (map delays_of pairs.new ≡ map delays_of pairs.old
        ++ map (pair_numbers (table_view table.now) (node_names nodes.now)) (pairs_from from (length nodes.now))) }
{
    for to in 0..nodes.len() as u32 {
        if to != from {
            pairs.push(pair_time(alloc, table, nodes, from, to)?)?;
        }
    }
    Ok(())
}

fn pair_times(alloc: Global, table: &Table, nodes: &[NamedNode]) -> Result<List<PairTime>, Memory>
    requires none { first_fault (table_view table.now) ≡ None }
    requires few { length nodes.now ≤ 32 }
    ensures { IfOk result (λ pairs. map delays_of pairs ≡ map (pair_numbers (table_view table.now) (node_names nodes.now)) (ordered_pairs (length nodes.now))) }
{
    let mut pairs = List::new(alloc);
    for from in 0..nodes.len() as u32 {
        push_pairs(alloc, table, nodes, from, &mut pairs)?;
    }
    Ok(pairs)
}

fn protocol_of(table: &Table) -> Protocol
    ensures { result ≡ protocol_of (table_view table.now) }
{
    if is_time_based(table) {
        Protocol::TimeBased
    } else {
        Protocol::BackPressure
    }
}

/// The timing of a setup without a fault.
pub fn timing_of(alloc: Global, table: &Table, nodes: &List<NamedNode>) -> Result<Timing, Memory>
    requires none { first_fault (table_view table.now) ≡ None }
    requires nodes { nodes.now ≡ setup_nodes (table_view table.now) }
    ensures times { IfOk result (λ timing. map numbers_of timing.nodes ≡ (setup_of (table_view table.now)).times) }
    ensures delays { IfOk result (λ timing. map delays_of timing.pairs ≡ (setup_of (table_view table.now)).delays) }
    ensures most { IfOk result (λ timing. timing.most ≡ most_delay (table_view table.now)) }
    ensures protocol { IfOk result (λ timing. timing.protocol ≡ protocol_of (table_view table.now)) }
{
    let nodes = nodes.as_slice();
    Ok(Timing {
        nodes: node_times(alloc, table, nodes)?,
        pairs: pair_times(alloc, table, nodes)?,
        most: most_delay(table),
        protocol: protocol_of(table),
    })
}
