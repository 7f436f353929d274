// What an observer makes of the cells of a run.
ghost use Rattle.std.specs.Prelude.{◌≡◌, ◌≤◌, ◌<◌, IfOk, length, map, slice_index_or, []};
ghost use Rattle.lt_watch.specs.Judged.{IsShortest, WatchTells, column, counted_columns, is_true, signals_at, values_at};

use crate::Watched;
use lt_base::{Cell, List, Memory, Value};
use lt_past::{Monitor, Observer};
use std::alloc::Global;

/// The truth value of a cell.
fn is_true(cell: Cell) -> bool
    ensures { result ≡ is_true cell }
{
    match cell {
        Cell::Here(Value::Bool(b)) => b,
        _ => false,
    }
}

/// The number of cells of an output; 0 of a place that is none.
fn length_of(cells: &[List<Cell>], place: usize) -> usize
    ensures { result ≡ length (column cells.now place) }
{
    match cells.get(place) {
        Some(list) => list.len(),
        None => 0,
    }
}

/// The truth value of an output at an instant; false where it has no cell.
fn value_at(cells: &[List<Cell>], place: usize, instant: usize) -> bool
    ensures { result ≡ is_true (slice_index_or (column cells.now place) instant Cell.Absent) }
{
    match cells.get(place) {
        Some(list) => match list.get(instant) {
            Some(cell) => is_true(*cell),
            None => false,
        },
        None => false,
    }
}

/// The least number of cells of all outputs; 0 where there is none.
fn least_of_all(cells: &[List<Cell>]) -> usize
    ensures { IsShortest cells.now result }
{
    let mut least = length_of(cells, 0);
    'lists: for k in 1..cells.len() {
        least = least.min(length_of(cells, k));
    }
    least
}

/// The least number of cells of the outputs at these places.
fn least_at(outs: &[u32], cells: &[List<Cell>]) -> usize
    requires { 0 < length outs.now }
    ensures { IsShortest (map (column cells.now) outs.now) result }
{
    let mut least = length_of(cells, outs[0] as usize);
    'places: for k in 1..outs.len() {
        least = least.min(length_of(cells, outs[k] as usize));
    }
    least
}

/// The number of instants that an observer judges.
fn count_instants(outs: &[u32], cells: &[List<Cell>]) -> usize
    ensures { IsShortest (counted_columns outs.now cells.now) result }
{
    if outs.is_empty() {
        least_of_all(cells)
    } else {
        least_at(outs, cells)
    }
}

/// Puts the truth values of the outputs at these places at an instant into a row.
fn fill(outs: &[u32], cells: &[List<Cell>], instant: usize, row: &mut [bool])
    requires { length row.old ≡ length outs.now }
    ensures { row.new ≡ values_at outs.now cells.now instant }
{
    'outs: for k in 0..outs.len() {
        row[k] = value_at(cells, outs[k] as usize, instant);
    }
}

/// What an observer makes of the cells of outputs. A monitor follows them instant by instant.
pub fn judge(alloc: Global, observer: &Observer, cells: &[List<Cell>]) -> Result<Watched, Memory>
    ensures { IfOk result (WatchTells observer.now cells.now) }
{
    let outs: &[u32] = &observer.outs;
    let mut monitor = Monitor::start(alloc, observer)?;
    let mut row = vec![in alloc; false; outs.len()]?;
    let count = count_instants(outs, cells);
    'instants: for instant in 0..count {
        fill(outs, cells, instant, &mut row);
        if !monitor.step(&row) {
            return Ok(Watched::Fails(instant));
        }
    }
    Ok(Watched::Holds(count))
}
