// Closed walks from a number.

ghost use Rattle.std.specs.Prelude.{◌≡◌, ◌<◌, false, IfOk, MatchBool, MatchOption, length, replicate};
ghost use Rattle.lt_graph.specs.Reach.{AreComponents};
ghost use Rattle.lt_graph.specs.Tables.{Leads, IsTable};
ghost use Rattle.lt_cause.specs.Tables.{Circles, HasWalkFrom, HasNoWalkFrom};

use lt_base::{List, Memory};
use lt_graph::{degrees, leads_to};
use std::alloc::Global;

/// Whether a number leads to one of its own component, so that a closed walk leads from it.
pub fn returns(table: &List<List<u32>>, names: &Vec<usize>, number: u32) -> bool
    requires names { AreComponents (Leads table.now) (length table.now) names.now.items }
    requires table { IsTable table.now }
    requires number { number < length table.now }
    ensures { MatchBool result (HasWalkFrom (Leads table.now) number) (HasNoWalkFrom (Leads table.now) number) }
{
    for next in table[number as usize].iter() {
        if names[*next as usize] == names[number as usize] {
            return true;
        }
    }
    false
}

fn unseen_marks(alloc: Global, size: usize) -> Result<Vec<bool>, Memory>
    ensures { IfOk result (λ r. r.items ≡ replicate size false) }
{
    let mut seen = Vec::with_capacity(alloc, size)?;
    for _number in 0..size {
        seen.push(false)?;
    }
    Ok(seen)
}

/// A closed walk from a number, without a repeated one, if there is a closed walk from it. It searches in depth.
pub fn circle(
    alloc: Global,
    table: &List<List<u32>>,
    start: u32,
) -> Result<Option<Vec<u32>>, Memory>
    requires table { IsTable table.now }
    requires start { start < length table.now }
    ensures { IfOk result (λ r. MatchOption r (HasNoWalkFrom (Leads table.now) start) (λ walk. Circles (Leads table.now) start walk.items)) }
{
    let mut seen = unseen_marks(alloc, table.len())?;
    let mut rest = degrees(alloc, table)?;
    let mut path = Vec::new(alloc);
    seen[start as usize] = true;
    path.push(start)?;
    while let Some(x) = path.pop() {
        let left = rest[x as usize];
        if left > 0 {
            let y = leads_to(table, x as usize, left - 1);
            rest[x as usize] = left - 1;
            path.push(x)?;
            if y == start {
                return Ok(Some(path));
            }
            if !seen[y as usize] {
                seen[y as usize] = true;
                path.push(y)?;
            }
        }
    }
    Ok(None)
}
