// The table of inputs, a column for each.
ghost use Rattle.std.specs.Prelude.{◌≡◌, ◌<◌, ◌≤◌, ◌+◌, ◌-◌, ◌^◌, ◌++◌, ◌∷◌, [], Some, IfOk, OnOk, OnErr, length, take};
ghost use Rattle.lt_base.specs.Inputs.{HaveRows, SameRows, HoldRow};

use crate::{List, Memory, Value};
use std::alloc::Global;
use std::marker::Model;

/// The values of a function's inputs at successive instants. A column holds the values of one input; what stands in a
/// column past the number of rows is left of a row for which no memory was found.
#[derive(Drop)]
pub struct Inputs {
    columns: Vec<Vec<Value>>,
    rows: u32,
}

impl Model for Inputs {
    ghost use Rattle.std.specs.Prelude.{All, ◌≤◌, length, map};
    ghost use Rattle.lt_base.specs.Inputs.{InputTable, rows_below};

    ghost Value = { InputTable };

    ghost view = { λ t. record { width = length t.columns.items; rows = rows_below (map (λ column. column.items) t.columns.items) t.rows } };

    ghost invariant = { λ t. All (λ column. t.rows ≤ length column.items) t.columns.items };
}

impl Inputs {
    ghost use Rattle.lt_base.specs.Inputs.{entry_at};

    /// A table with so many columns and no rows.
    pub fn new(alloc: Global, n_in: u32) -> Result<Inputs, Memory>
        ensures { IfOk result (λ table. table ≡ record { width = n_in; rows = [] }) }
    {
        let mut columns = Vec::with_capacity(alloc, n_in as usize)?;
        for _column in 0..n_in {
            columns.push(Vec::new(alloc))?;
        }
        Ok(Inputs { columns, rows: 0 })
    }

    /// Appends a row: a value for each input.
    pub fn push(&mut self, row: &[Value]) -> Result<(), Memory>
        requires width { length row.now ≡ self.old.width }
        requires room { length self.old.rows < 2 ^ 32 - 1 }
        ensures width { self.new.width ≡ self.old.width }
        ensures ok { OnOk result (self.new.rows ≡ self.old.rows ++ row.now ∷ []) }
        ensures err { OnErr result (self.new.rows ≡ self.old.rows) }
    {
        let rows = self.rows as usize;
        put_row(&mut self.columns, rows, row)?;
        self.rows += 1;
        Ok(())
    }

    /// The number of rows.
    pub fn rows(&self) -> u32
        ensures { result ≡ length self.now.rows }
    {
        self.rows
    }

    /// The value of an input in a row.
    pub fn value(&self, row: u32, input: u32) -> Value
        requires row { row < length self.now.rows }
        requires input { input < self.now.width }
        ensures { entry_at self.now.rows row input ≡ Some result }
    {
        self.columns[input as usize][row as usize]
    }

    /// An equal table.
    pub fn copy(&self) -> Result<Inputs, Memory>
        ensures { IfOk result (λ copy. copy ≡ self.now) }
    {
        let alloc = *self.columns.allocator();
        let mut columns = Vec::with_capacity(alloc, self.columns.len())?;
        for column in &self.columns {
            columns.push(List::from_slice(alloc, column.as_slice())?.into_vec())?;
        }
        Ok(Inputs {
            columns,
            rows: self.rows,
        })
    }
}

// Puts a row behind the first rows of the columns. Without memory those stay as they are.
fn put_row(columns: &mut Vec<Vec<Value>>, rows: usize, row: &[Value]) -> Result<(), Memory>
    requires width { length row.now ≡ length columns.old.items }
    requires filled { HaveRows rows columns.old.items }
    ensures width { length columns.new.items ≡ length columns.old.items }
    ensures filled { HaveRows rows columns.new.items }
    ensures kept { SameRows rows columns.old.items columns.new.items }
    ensures more { OnOk result (HaveRows (rows + 1) columns.new.items) }
    ensures row { OnOk result (HoldRow rows row.now columns.new.items) }
{
    for input in 0..row.len() {
        put(&mut columns[input], rows, row[input])?;
    }
    Ok(())
}

// Puts a value at a place of a column, and drops what stands behind it.
fn put(column: &mut Vec<Value>, place: usize, value: Value) -> Result<(), Memory>
    requires { place ≤ length column.old.items }
    ensures ok { OnOk result (column.new.items ≡ take place column.old.items ++ value ∷ []) }
    ensures err { OnErr result (column.new.items ≡ take place column.old.items) }
{
    column.truncate(place);
    column.push(value)?;
    Ok(())
}
