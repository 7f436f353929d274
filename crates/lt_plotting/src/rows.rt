// The rows of a plot: one for each output.
ghost use Rattle.std.specs.Prelude.{◌≡◌, ◌<◌, IfOk, length, slice_index_or};
ghost use Rattle.lt_plotting.specs.Picture.{is_truth_type, output_row, output_rows};

use lt_base::{Cell, Func, List, Memory, Ty};
use lt_plot::Row;
use std::alloc::Global;
use std::mem::replace;

// Whether a type is that of truth values.
fn is_truth_type(ty: Ty) -> bool
    ensures { result ≡ is_truth_type ty }
{
    match ty {
        Ty::Bool => true,
        Ty::Int => false,
    }
}

// The row of an output, whose stream is given up.
#[tactic(auto, unfolding(crate::specs::Picture::output_row))]
fn output_row(
    alloc: Global,
    main: &Func,
    place: usize,
    stream: &mut List<Cell>,
    printed: usize,
) -> Result<Row, Memory>
    requires { place < length main.now.outs }
    ensures { IfOk result (λ row. row ≡ output_row main.now place stream.old printed) }
{
    main.invariant_holds();
    let declared = &main.decls[main.outs[place] as usize];
    let name = declared.name.copy()?;
    Ok(Row {
        name,
        truth: is_truth_type(declared.ty),
        cells: replace(stream, List::new(alloc)),
        printed,
    })
}

// The length at a place; 0 where there is none.
fn length_at(lengths: &[usize], place: usize) -> usize
    ensures { result ≡ slice_index_or lengths.now place 0 }
{
    match lengths.get(place) {
        Some(length) => *length,
        None => 0,
    }
}

/// A row for each output, with its stream and how many cells of it were printed.
pub(crate) fn output_rows(
    alloc: Global,
    main: &Func,
    streams: List<List<Cell>>,
    lengths: &[usize],
) -> Result<List<Row>, Memory>
    requires { length streams ≡ length main.now.outs }
    ensures { IfOk result (λ rows. rows ≡ output_rows main.now streams lengths.now) }
{
    let mut columns = streams.into_vec();
    let mut rows = List::new(alloc);
    'outputs: for place in 0..main.outs.len() {
        let printed = length_at(lengths, place);
        let row = output_row(alloc, main, place, &mut columns[place], printed)?;
        rows.push(row)?;
    }
    Ok(rows)
}
