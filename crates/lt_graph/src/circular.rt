// The first edge that lies on a closed walk.

ghost use Rattle.std.specs.Prelude.{◌≡◌, ◌≤◌, ◌^◌, [], IfOk, OnOk, MatchOption, length, replicate};
ghost use Rattle.lt_base.specs.Graph.{NoClosedWalk};
ghost use Rattle.lt_graph.specs.Edges.{Joined, AreWithin, HasEdges, IsFirstCircular};

use crate::strong::components;
use lt_base::{List, Memory};
use std::alloc::Global;

/// As many empty rows as there are nodes.
fn empty_rows(alloc: Global, nodes: usize) -> Result<Vec<List<u32>>, Memory>
    ensures { IfOk result (λ rows. rows.items ≡ replicate nodes []) }
{
    let mut rows = Vec::with_capacity(alloc, nodes)?;
    for _node in 0..nodes {
        rows.push(List::new(alloc))?;
    }
    Ok(rows)
}

/// Adds each edge to the empty row of the node that it leads from.
fn add_edges(rows: &mut Vec<List<u32>>, edges: &[(u32, u32)]) -> Result<(), Memory>
    requires empty { rows.old.items ≡ replicate (length rows.old.items) [] }
    requires within { AreWithin (length rows.old.items) edges.now }
    ensures { OnOk result (HasEdges (length rows.old.items) edges.now rows.new.items) }
{
    for (from, to) in edges {
        rows[*from as usize].push(*to)?;
    }
    Ok(())
}

/// For each node, those that edges lead to from it.
fn table_of(alloc: Global, nodes: usize, edges: &[(u32, u32)]) -> Result<List<List<u32>>, Memory>
    requires { AreWithin nodes edges.now }
    ensures { IfOk result (HasEdges nodes edges.now) }
{
    let mut rows = empty_rows(alloc, nodes)?;
    add_edges(&mut rows, edges)?;
    Ok(List::of(rows))
}

/// The place of the first edge that lies on a closed walk; none where no walk is closed. An edge is written
/// (from, to), and the nodes are numbered from 0. It takes time in proportion to the nodes and edges.
pub fn first_circular(
    alloc: Global,
    nodes: usize,
    edges: &[(u32, u32)],
) -> Result<Option<usize>, Memory>
    requires { AreWithin nodes edges.now }
    ensures { IfOk result (λ r. MatchOption r (NoClosedWalk (Joined edges.now)) (IsFirstCircular edges.now)) }
{
    let table = table_of(alloc, nodes, edges)?;
    let names = components(alloc, &table)?;
    for (place, (from, to)) in edges.iter().enumerate() {
        if names[*from as usize] == names[*to as usize] {
            return Ok(Some(place));
        }
    }
    Ok(None)
}
