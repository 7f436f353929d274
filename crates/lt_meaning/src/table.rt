// Tables of cells.
ghost use Rattle.std.specs.Prelude.{◌≡◌, ◌<◌, [], Some, length, slice_get, slice_index_or};

use lt_base::{Cell, List};
use std::marker::Model;

/// The cells of a function's variables: a stream for each variable, by its number.
#[derive(Drop)]
pub struct Table {
    columns: List<List<Cell>>,
}

impl Model for Table {
    ghost use Rattle.std.specs.Prelude.{List};
    ghost use Rattle.lt_base.specs.declared.value.Cell.{Cell};

    ghost Value = { List (List Cell) };

    ghost view = { λ t. t.columns };
}

impl Table {
    /// The table of these streams. It takes no memory.
    pub fn of(columns: List<List<Cell>>) -> Table
        ensures { result ≡ columns }
    {
        Table { columns }
    }

    /// The number of variables.
    pub fn variables(&self) -> usize
        ensures { result ≡ length self.now }
    {
        self.columns.len()
    }

    /// The stream of a variable, oldest cell first.
    pub fn column(&self, var: u32) -> &[Cell]
        requires { var < length self.now }
        ensures { result.now ≡ slice_index_or self.now var [] }
    {
        &self.columns[var as usize]
    }

    /// The cell of a variable at an instant, counted from 0.
    pub fn cell(&self, var: u32, k: u32) -> Cell
        requires var { var < length self.now }
        requires instant { k < length (slice_index_or self.now var []) }
        ensures { slice_get (slice_index_or self.now var []) k ≡ Some result }
    {
        self.column(var)[k as usize]
    }
}
