// Columns of cells, one for each output.

ghost use Rattle.std.specs.Prelude.{◌≡◌, [], IfOk, OnOk, length, replicate};
ghost use Rattle.lt_evaluate.specs.Columns.{ColumnsGain};

use lt_base::{Cell, List, Memory};
use std::alloc::Global;

/// So many empty columns, each with room for the rows.
pub(crate) fn empty_columns(
    alloc: Global,
    number: usize,
    rows: usize,
) -> Result<Vec<List<Cell>>, Memory>
    ensures { IfOk result (λ columns. columns.items ≡ replicate number []) }
{
    let mut columns = Vec::with_capacity(alloc, number)?;
    for _column in 0..number {
        columns.push(List::of(Vec::with_capacity(alloc, rows)?))?;
    }
    Ok(columns)
}

/// Appends each cell to its column.
pub(crate) fn push_cells(columns: &mut Vec<List<Cell>>, cells: &[Cell]) -> Result<(), Memory>
    requires { length columns.old.items ≡ length cells.now }
    ensures size { length columns.new.items ≡ length columns.old.items }
    ensures pushed { OnOk result (ColumnsGain cells.now columns.old.items columns.new.items) }
{
    for i in 0..cells.len() {
        columns[i].push(cells[i])?;
    }
    Ok(())
}
