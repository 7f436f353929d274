// Room for what events need.
ghost use Rattle.std.specs.Prelude.{◌≡◌, max, length, replicate, All, IfOk};
ghost use Rattle.lt_arch.specs.Readers.{node_count};
ghost use Rattle.lt_net_bench.specs.Starts.{most_fed, most_given, IsBlank};

use crate::track::Track;
use lt_arch::Shape;
use lt_base::{Cell, Memory, Value};
use lt_place::{Layout, Part};
use std::alloc::Global;

// The number of inputs of the part that has most.
fn most_fed(nodes: &[Part]) -> usize
    ensures { result ≡ most_fed nodes.now }
{
    let mut most = 0;
    for n in 0..nodes.len() {
        most = most.max(nodes[n].feeds.len());
    }
    most
}

// The number of outputs of the part that has most.
fn most_given(nodes: &[Part]) -> usize
    ensures { result ≡ most_given nodes.now }
{
    let mut most = 0;
    for n in 0..nodes.len() {
        most = most.max(nodes[n].outs.len());
    }
    most
}

/// Room for a message, and for a row of each part.
pub fn values(alloc: Global, layout: &Layout) -> Result<Vec<Value>, Memory>
    ensures { IfOk result (λ values. length values.items ≡ max (length layout.now.cross) (most_fed layout.now.nodes)) }
{
    let room = layout.cross.len().max(most_fed(&layout.nodes));
    Ok(vec![in alloc; Value::Bool(false); room]?)
}

/// Room for a row of outputs of each part.
pub fn outs(alloc: Global, layout: &Layout) -> Result<Vec<Cell>, Memory>
    ensures { IfOk result (λ outs. length outs.items ≡ most_given layout.now.nodes) }
{
    let room = most_given(&layout.nodes);
    Ok(vec![in alloc; Cell::Absent; room]?)
}

/// Room for the cells of each output.
pub fn tracks(alloc: Global, layout: &Layout, rows: u32) -> Result<Vec<Track>, Memory>
    ensures size { IfOk result (λ tracks. length tracks.items ≡ length layout.now.outs) }
    ensures blank { IfOk result (λ tracks. All (IsBlank rows) tracks.items) }
{
    let count = layout.outs.len();
    let mut tracks = Vec::with_capacity(alloc, count)?;
    for _output in 0..count {
        tracks.push(Track::with_room(alloc, rows)?)?;
    }
    Ok(tracks)
}

/// No node has executed an instant.
pub fn counts(alloc: Global, shape: &Shape) -> Result<Vec<u32>, Memory>
    ensures { IfOk result (λ counts. counts.items ≡ replicate (node_count shape.now) 0) }
{
    Ok(vec![in alloc; 0; shape.nodes.len()]?)
}
