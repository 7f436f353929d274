// The text of outputs.
ghost use Rattle.std.specs.Prelude.{◌≡◌, ◌++◌, ◌∷◌, [], OnOk, IfOk, length};
ghost use Rattle.lt_text_values.specs.OutputLines.{cell_text, cells_text, output_line, outputs_text};

use lt_base::{Cell, List, Memory, Name, Value, append_number};
use std::alloc::Global;
use std::mem::replace;

/// The text of outputs, by their names and cells: a line for each. A column is given up once its line is made, so that the cells
/// and the text are never whole beside each other.
pub fn outputs_text(
    alloc: Global,
    names: List<Name>,
    cells: List<List<Cell>>,
) -> Result<List<u8>, Memory>
    requires { length names ≡ length cells }
    ensures { IfOk result (λ text. text ≡ outputs_text names cells) }
{
    let mut text = List::new(alloc);
    append_outputs(alloc, &mut text, &names, cells.into_vec())?;
    Ok(text)
}

fn append_outputs(
    alloc: Global,
    text: &mut List<u8>,
    names: &[Name],
    mut columns: Vec<List<Cell>>,
) -> Result<(), Memory>
    requires { length names.now ≡ length columns.items }
    ensures { OnOk result (text.new ≡ text.old ++ outputs_text names.now columns.items) }
{
    for (output, name) in names.iter().enumerate() {
        append_column(alloc, text, name, &mut columns[output])?;
    }
    Ok(())
}

// Appends the line of an output, and gives its cells up.
fn append_column(
    alloc: Global,
    text: &mut List<u8>,
    name: &Name,
    column: &mut List<Cell>,
) -> Result<(), Memory>
    ensures { OnOk result (text.new ≡ text.old ++ output_line name.now column.old) }
{
    let cells = replace(column, List::new(alloc));
    append_line(text, name, &cells)
}

fn append_line(text: &mut List<u8>, name: &Name, cells: &List<Cell>) -> Result<(), Memory>
    ensures { OnOk result (text.new ≡ text.old ++ output_line name.now cells.now) }
{
    text.extend(name.as_str().as_bytes())?;
    text.extend(b":")?;
    append_cells(text, cells)?;
    text.extend(b"\n")
}

fn append_cells(text: &mut List<u8>, cells: &[Cell]) -> Result<(), Memory>
    ensures { OnOk result (text.new ≡ text.old ++ cells_text cells.now) }
{
    for cell in cells {
        text.extend(b" ")?;
        append_cell(text, *cell)?;
    }
    Ok(())
}

/// Appends a cell: a number, a truth value or the sign of an absence.
pub fn append_cell(text: &mut List<u8>, cell: Cell) -> Result<(), Memory>
    ensures { OnOk result (text.new ≡ text.old ++ cell_text cell) }
{
    match cell {
        Cell::Absent => text.extend(b"."),
        Cell::Here(Value::Int(number)) => append_number(text, number),
        Cell::Here(Value::Bool(true)) => text.extend(b"true"),
        Cell::Here(Value::Bool(false)) => text.extend(b"false"),
    }
}
