// The summary of a run.
ghost use Rattle.std.specs.Prelude.{◌≡◌, ◌++◌, OnOk, IfOk, length, slice_get, ◌-◌};
ghost use Rattle.lt_text_values.specs.OutputLines.{last_text, summary_line, summary_lines, summary_text};

use crate::outputs::append_cell;
use lt_base::{Cell, List, Memory, Name, append_number};
use std::alloc::Global;

/// The number of instants, and for each output its name, the number of its cells and the last of them.
pub fn summary_text(
    alloc: Global,
    instants: u32,
    names: &[Name],
    cells: &[List<Cell>],
) -> Result<List<u8>, Memory>
    requires { length names.now ≡ length cells.now }
    ensures { IfOk result (λ text. text ≡ summary_text instants names.now cells.now) }
{
    let mut text = List::new(alloc);
    append_summary(&mut text, instants, names, cells)?;
    Ok(text)
}

fn append_summary(
    text: &mut List<u8>,
    instants: u32,
    names: &[Name],
    cells: &[List<Cell>],
) -> Result<(), Memory>
    requires { length names.now ≡ length cells.now }
    ensures { OnOk result (text.new ≡ text.old ++ summary_text instants names.now cells.now) }
{
    text.extend(b"instants ")?;
    append_number(text, instants)?;
    text.extend(b"\n")?;
    append_lines(text, names, cells)
}

fn append_lines(text: &mut List<u8>, names: &[Name], cells: &[List<Cell>]) -> Result<(), Memory>
    requires { length names.now ≡ length cells.now }
    ensures { OnOk result (text.new ≡ text.old ++ summary_lines names.now cells.now) }
{
    for (output, name) in names.iter().enumerate() {
        append_line(text, name, &cells[output])?;
    }
    Ok(())
}

fn append_line(text: &mut List<u8>, name: &Name, cells: &List<Cell>) -> Result<(), Memory>
    ensures { OnOk result (text.new ≡ text.old ++ summary_line name.now cells.now) }
{
    text.extend(name.as_str().as_bytes())?;
    text.extend(b" ")?;
    append_number(text, cells.len())?;
    append_last(text, cells)?;
    text.extend(b"\n")
}

// Appends a space and the last cell, if there is one.
fn append_last(text: &mut List<u8>, cells: &[Cell]) -> Result<(), Memory>
    ensures { OnOk result (text.new ≡ text.old ++ last_text (slice_get cells.now (length cells.now - 1))) }
{
    match cells.last() {
        Some(cell) => {
            text.extend(b" ")?;
            append_cell(text, *cell)
        }
        None => Ok(()),
    }
}
