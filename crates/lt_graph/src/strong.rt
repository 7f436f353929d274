// The strongly connected components of a table.

ghost use Rattle.std.specs.Prelude.{◌≡◌, ◌<◌, ℕ, IfOk, length};
ghost use Rattle.lt_graph.specs.Tables.{Leads, IsTable};
ghost use Rattle.lt_graph.specs.Reach.{AreComponents};
ghost use Rattle.lt_graph.specs.Search.{IsDone, AreNames, mark};

use crate::search::{Mark, Search};
use lt_base::{List, Memory};
use std::alloc::Global;

/// The names of components that the marks have.
fn names(alloc: Global, marks: &Vec<Mark>) -> Result<Vec<usize>, Memory>
    requires { (x : ℕ) → x < length marks.now.items → IsDone (mark marks.now.items x) }
    ensures { IfOk result (λ r. AreNames marks.now.items r.items) }
{
    let mut names = Vec::with_capacity(alloc, marks.len())?;
    for number in 0..marks.len() {
        match marks[number] {
            Mark::Done(name) => names.push(name)?,
            _ => unreachable!(),
        }
    }
    Ok(names)
}

/// For each number of a table the name of its component: two numbers have the same name exactly where each reaches the
/// other. It takes time in proportion to the table.
pub fn components(alloc: Global, table: &List<List<u32>>) -> Result<Vec<usize>, Memory>
    requires { IsTable table.now }
    ensures { IfOk result (λ r. AreComponents (Leads table.now) (length table.now) r.items) }
{
    let mut search = Search::new(alloc, table)?;
    for root in 0..table.len() {
        search.begin(root)?;
        search.follow(table)?;
    }
    names(alloc, &search.marks)
}
