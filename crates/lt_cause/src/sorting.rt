// Numbers in an order in which each comes after those that it leads to.

ghost use Rattle.std.specs.Prelude.{◌≡◌, ◌<◌, ◌^◌, IfOk, MatchOption, length, replicate};
ghost use Rattle.lt_graph.specs.Tables.{Leads, IsTable};
ghost use Rattle.lt_cause.specs.Tables.{Sorts, HasClosedWalk};

use lt_base::{List, Memory};
use lt_graph::{degrees, leads_to};
use std::alloc::Global;

/// How far the search has come with a number.
#[derive(Clone, Copy)]
pub enum Mark {
    New,
    Open,
    Done,
}

fn new_marks(alloc: Global, size: usize) -> Result<Vec<Mark>, Memory>
    ensures { IfOk result (λ r. r.items ≡ replicate size Mark.New) }
{
    let mut marks = Vec::with_capacity(alloc, size)?;
    for _number in 0..size {
        marks.push(Mark::New)?;
    }
    Ok(marks)
}

/// The numbers of a table, each after those that it leads to; none where a walk is closed. It searches in depth, and a
/// number is done when all that it leads to are.
pub fn topological_order(alloc: Global, table: &List<List<u32>>) -> Result<Option<Vec<u32>>, Memory>
    requires table { IsTable table.now }
    requires size { length table.now < 2 ^ 32 }
    ensures { IfOk result (λ r. MatchOption r (HasClosedWalk (Leads table.now)) (λ order. Sorts (Leads table.now) (length table.now) order.items)) }
{
    let size = table.len();
    let mut marks = new_marks(alloc, size)?;
    let mut rest = degrees(alloc, table)?;
    let mut order = Vec::with_capacity(alloc, size)?;
    let mut path = Vec::new(alloc);
    for root in 0..size as u32 {
        let Mark::New = marks[root as usize] else {
            continue;
        };
        marks[root as usize] = Mark::Open;
        path.push(root)?;
        while let Some(x) = path.pop() {
            let left = rest[x as usize];
            if left == 0 {
                marks[x as usize] = Mark::Done;
                order.push(x)?;
            } else {
                let y = leads_to(table, x as usize, left - 1);
                match marks[y as usize] {
                    Mark::New => {
                        marks[y as usize] = Mark::Open;
                        path.push(x)?;
                        path.push(y)?;
                    }
                    Mark::Open => return Ok(None),
                    Mark::Done => {
                        rest[x as usize] = left - 1;
                        path.push(x)?;
                    }
                }
            }
        }
    }
    Ok(Some(order))
}
