// The cells of a stream by their instants.
ghost use Rattle.std.specs.Prelude.{◌≡◌};
ghost use Rattle.lt_scale.specs.Cells.{stream_cell, is_there, has_level};

use crate::level;
use lt_base::Cell;

/// The cell of an instant. Past the stream nothing is there.
#[tactic(auto, unfolding(crate::specs::Cells::stream_cell))]
pub fn cell_at(cells: &[Cell], instant: usize) -> Cell
    ensures { result ≡ stream_cell cells.now instant }
{
    if instant < cells.len() {
        cells[instant]
    } else {
        Cell::Absent
    }
}

/// Whether a cell has a value.
pub fn is_there(cell: Cell) -> bool
    ensures { result ≡ is_there cell }
{
    match cell {
        Cell::Absent => false,
        Cell::Here(_) => true,
    }
}

/// Whether a cell has a value at this level.
#[tactic(auto, unfolding(crate::specs::Cells::has_level))]
pub fn has_level(cell: Cell, at: u64) -> bool
    ensures { result ≡ has_level cell at }
{
    match cell {
        Cell::Absent => false,
        Cell::Here(value) => level(value) == at,
    }
}
