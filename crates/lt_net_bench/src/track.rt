// The cells of an output, whose room is taken at the start.
ghost use Rattle.std.specs.Prelude.{◌≡◌, ◌<◌, ◌++◌, ◌∷◌, [], length, map, IfOk};

use lt_base::{Cell, List, Memory};
use std::alloc::Global;
use std::marker::Model;

/// Cells in order, with room for more.
#[derive(Drop)]
pub struct Track {
    cells: Vec<Cell>,
}

impl Model for Track {
    ghost use Rattle.std.specs.Prelude.{vec_capacity};
    ghost use Rattle.lt_net_bench.specs.Track.{TrackState};

    ghost Value = { TrackState };

    ghost view = { λ t. record { cells = t.cells.items; room = vec_capacity t.cells } };
}

impl Track {
    /// No cells, with room for exactly this many.
    pub fn with_room(alloc: Global, room: u32) -> Result<Track, Memory>
        ensures cells { IfOk result (λ track. track.cells ≡ []) }
        ensures room { IfOk result (λ track. track.room ≡ room) }
    {
        Ok(Track {
            cells: Vec::with_capacity(alloc, room as usize)?,
        })
    }

    /// Appends a cell. It takes no memory.
    pub fn push(&mut self, cell: Cell)
        requires { length self.old.cells < self.old.room }
        ensures { self.new ≡ record self.old { cells = self.old.cells ++ cell ∷ [] } }
    {
        self.cells.push_reserved(cell);
    }

    /// The cells.
    pub fn as_slice(&self) -> &[Cell]
        ensures { result.now ≡ self.now.cells }
    {
        &self.cells
    }

    /// The cells alone, which are not copied.
    pub fn into_cells(self) -> List<Cell>
        ensures { result ≡ self.cells }
    {
        List::of(self.cells)
    }
}

/// The cells of each output. None is copied.
pub fn cells_of(alloc: Global, tracks: Vec<Track>) -> Result<List<List<Cell>>, Memory>
    ensures { IfOk result (λ cells. cells ≡ map (λ track. track.cells) tracks.items) }
{
    let mut cells = Vec::with_capacity(alloc, tracks.len())?;
    for track in tracks {
        cells.push(track.into_cells())?;
    }
    Ok(List::of(cells))
}
