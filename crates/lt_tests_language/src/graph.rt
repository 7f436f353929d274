// Closed walks of edges, and components.
ghost use Rattle.std.specs.Prelude.{◌<◌, ⊤, All, IfOk, MatchBool};
ghost use Rattle.lt_graph.specs.Tables.{IsTable};

use crate::texts::tell;
use lt_base::{List, Memory};
use lt_graph::{components, degrees, first_circular};
use std::alloc::Global;

// More than the number of each node.
const NODES: usize = 4;

fn edge_of(text: &str) -> Option<(u32, u32)> {
    let (from, to) = text.split_once('>')?;
    Some((from.parse().ok()?, to.parse().ok()?))
}

fn edges_of(alloc: Global, text: &str) -> Result<Vec<(u32, u32)>, Memory> {
    let mut edges = Vec::new(alloc);
    for part in text.split(' ') {
        match edge_of(part) {
            Some(edge) => edges.push(edge)?,
            None => return Err(Memory),
        }
    }
    Ok(edges)
}

fn are_within(edges: &[(u32, u32)]) -> bool
    ensures { MatchBool result (All (λ e. (e.0 < 4) × (e.1 < 4)) edges.now) ⊤ }
{
    edges.iter().all(|e| e.0 < 4 && e.1 < 4)
}

/// Tells which of these edges, written as `0>1`, is the first on a closed walk.
pub fn tell_circular(alloc: Global, line: &mut String, text: &str) -> Result<(), Memory> {
    let edges = edges_of(alloc, text)?;
    if !are_within(edges.as_slice()) {
        return Err(Memory);
    }
    tell(line, first_circular(alloc, NODES, edges.as_slice())?)
}

// 0 -> 1 -> 0, and on to 2.
fn ring(alloc: Global) -> Result<List<List<u32>>, Memory>
    ensures { IfOk result IsTable }
{
    let first = List::from_slice(alloc, &[1u32])?;
    let second = List::from_slice(alloc, &[0u32, 2])?;
    Ok(List::of(vec![in alloc; first, second, List::new(alloc)]?))
}

/// Tells how many edges leave each node of a ring with a way out, and the first node of each node's component.
pub fn tell_ring(alloc: Global, line: &mut String) -> Result<(), Memory> {
    match ring(alloc) {
        Ok(table) => tell_table(alloc, line, &table),
        Err(_) => Err(Memory),
    }
}

fn tell_table(alloc: Global, line: &mut String, table: &List<List<u32>>) -> Result<(), Memory>
    requires { IsTable table.now }
{
    tell_degrees(alloc, line, table)?;
    match components(alloc, table) {
        Ok(names) => tell_firsts(line, names.as_slice()),
        Err(_) => Err(Memory),
    }
}

fn tell_degrees(alloc: Global, line: &mut String, table: &List<List<u32>>) -> Result<(), Memory> {
    match degrees(alloc, table) {
        Ok(numbers) => tell(line, numbers.as_slice()),
        Err(_) => Err(Memory),
    }
}

// Tells for each name the first place at which it stands.
fn tell_firsts(line: &mut String, names: &[usize]) -> Result<(), Memory> {
    for name in names {
        tell(line, names.iter().position(|other| other == name))?;
    }
    Ok(())
}
