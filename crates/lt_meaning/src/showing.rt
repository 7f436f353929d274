// What variables have at an instant, put into their columns.

ghost use Rattle.std.specs.Prelude.{◌≡◌, ◌<◌, ◌++◌, ◌∷◌, ℕ, [], OnOk, length, slice_index_or};
ghost use Rattle.std.specs.List.{All};
ghost use Rattle.lt_base.specs.Meaning.{entry, cell as cell_of};
ghost use Rattle.lt_meaning.specs.Ready.{cell_at_place};

use crate::node::{at, is_present};
use lt_base::{Cell, Clock, Decl, List, Memory, Slot};

/// Puts what these variables have at an instant into their columns.
pub fn show(
    columns: &mut Vec<List<Cell>>,
    variables: &[u32],
    decls: &[Decl],
    cells: &[Slot],
) -> Result<(), Memory>
    requires columns { length columns.old.items ≡ length variables.now }
    requires variables { All (λ x. x < length decls.now) variables.now }
    ensures size { length columns.new.items ≡ length columns.old.items }
    ensures shown { OnOk result ((i : ℕ) → i < length variables.now
        → slice_index_or columns.new.items i [] ≡ slice_index_or columns.old.items i [] ++ cell_at_place decls.now (entry cells.now) variables.now i ∷ []) }
{
    for i in 0..variables.len() {
        let x = variables[i] as usize;
        let cell = cell_at(&decls[x].clock, cells, x);
        columns[i].push(cell)?;
    }
    Ok(())
}

// What a variable has at an instant.
fn cell_at(clock: &Clock, cells: &[Slot], x: usize) -> Cell
    ensures { result ≡ cell_of (entry cells.now) clock.now x }
{
    if !is_present(clock, cells) {
        return Cell::Absent;
    }
    match at(cells, x).value() {
        Some(value) => Cell::Here(value),
        None => Cell::Absent,
    }
}
