// The streams of a program on a table of inputs.
ghost use Rattle.std.specs.Prelude.{◌≡◌, Some, IfOk};
ghost use Rattle.lt_meaning.specs.Streams.{InputsFitMain, main_of};

use crate::answers::tell_cells;
use lt_base::{Cell, Func, Inputs, List, Memory, Program};
use lt_front::Checked;
use lt_inputs::read_inputs;
use lt_meaning::{Table, output_streams, streams};
use std::alloc::Global;

// The function that is run.
fn main_function(p: &Program) -> &Func
    ensures { main_of p.now ≡ Some result.now }
{
    p.invariant_holds();
    let number = p.main as usize;
    &p.funcs.as_slice()[number]
}

// The bytes of a text in which `/` stands for a line feed.
fn bytes_of(alloc: Global, text: &str) -> Result<Vec<u8>, Memory> {
    let mut bytes = Vec::new(alloc);
    for byte in text.bytes() {
        bytes.push(if byte == b'/' { b'\n' } else { byte })?;
    }
    Ok(bytes)
}

// The rows of a table of inputs.
fn inputs_of(alloc: Global, p: &Program, text: &str) -> Result<Inputs, Memory>
    ensures { IfOk result (InputsFitMain p.now) }
{
    let bytes = bytes_of(alloc, text)?;
    match read_inputs(alloc, bytes.as_slice(), main_function(p)) {
        Ok(inputs) => Ok(inputs),
        Err(_) => Err(Memory),
    }
}

/// Tells the streams of all variables.
pub fn tell_streams(
    alloc: Global,
    line: &mut String,
    checked: &Checked,
    text: &str,
) -> Result<(), Memory> {
    let inputs = inputs_of(alloc, &checked.program, text)?;
    checked.invariant_holds();
    match streams(alloc, &checked.program, &inputs) {
        Ok(table) => tell_columns(line, &table),
        Err(_) => Err(Memory),
    }
}

fn tell_columns(line: &mut String, table: &Table) -> Result<(), Memory> {
    let variables = table.variables();
    if variables > 100 {
        return Err(Memory);
    }
    for x in 0..variables as u32 {
        tell_cells(line, table.column(x))?;
    }
    Ok(())
}

/// Tells the streams of the outputs.
pub fn tell_outputs(
    alloc: Global,
    line: &mut String,
    checked: &Checked,
    text: &str,
) -> Result<(), Memory> {
    let inputs = inputs_of(alloc, &checked.program, text)?;
    checked.invariant_holds();
    match output_streams(alloc, &checked.program, &inputs) {
        Ok(outputs) => tell_rows(line, &outputs),
        Err(_) => Err(Memory),
    }
}

fn tell_rows(line: &mut String, outputs: &List<List<Cell>>) -> Result<(), Memory> {
    for cells in outputs.as_slice() {
        tell_cells(line, cells.as_slice())?;
    }
    Ok(())
}
