// Tables of what each number leads to.

ghost use Rattle.std.specs.Prelude.{◌≡◌, ◌<◌, IfOk, length, map, slice_index};
ghost use Rattle.lt_graph.specs.Tables.{next};

use lt_base::{List, Memory};
use std::alloc::Global;

/// For each number, how many others it leads to.
pub fn degrees(alloc: Global, table: &List<List<u32>>) -> Result<Vec<usize>, Memory>
    ensures { IfOk result (λ r. r.items ≡ map length table.now) }
{
    let mut rest = Vec::with_capacity(alloc, table.len())?;
    for list in table.iter() {
        rest.push(list.len())?;
    }
    Ok(rest)
}

/// What stands at a place of a number's list.
pub fn leads_to(table: &List<List<u32>>, number: usize, place: usize) -> u32
    requires number { number < length table.now }
    requires place { place < length (next table.now number) }
    ensures { result ≡ slice_index (next table.now number) place }
{
    table[number][place]
}
