// The answers to questions.

use crate::flat_forms::{tell_copy, tell_flat, tell_whole};
use crate::layouts::tell_layout;
use crate::machines::{tell_code, tell_table, tell_ways};
use crate::script::Question;
use crate::tables::{tell_outputs, tell_streams};
use lt_base::{Cell, Memory, Value};
use lt_compile::front;
use lt_front::Checked;
use std::alloc::Global;
use std::fmt::Debug;

/// The line with the answer. An error stands for a text that is refused, and for want of memory.
pub fn answer(alloc: Global, question: Question) -> Result<String, Memory> {
    let mut line = String::from_str(alloc, "=")?;
    tell_asked(alloc, &mut line, question)?;
    Ok(line)
}

// Tells what is asked of a text that passes all checks.
fn tell_asked(alloc: Global, line: &mut String, question: Question) -> Result<(), Memory> {
    if question.program.len() > 10_000 {
        return Err(Memory);
    }
    match front(alloc, question.program.as_bytes()) {
        Ok(checked) => {
            let told = tell(alloc, line, &checked, question);
            drop(checked);
            told
        }
        Err(_) => Err(Memory),
    }
}

fn tell(
    alloc: Global,
    line: &mut String,
    checked: &Checked,
    question: Question,
) -> Result<(), Memory> {
    let (what, rest) = question
        .words
        .split_once(' ')
        .unwrap_or((question.words, ""));
    if what == "whole" {
        return tell_whole(alloc, line, checked, rest);
    }
    if what == "flat" {
        return tell_flat(line, &checked.flat, rest);
    }
    if what == "copy" {
        return tell_copy(line, &checked.flat, rest);
    }
    if what == "layout" {
        return tell_layout(alloc, line, checked, rest);
    }
    tell_run(alloc, line, checked, what, rest, question.inputs)
}

// What machines show on the rows of a text, and the streams of a table of inputs.
fn tell_run(
    alloc: Global,
    line: &mut String,
    checked: &Checked,
    what: &str,
    rest: &str,
    inputs: &str,
) -> Result<(), Memory> {
    if what == "code" {
        return tell_code(alloc, line, checked, rest);
    }
    if what == "ways" {
        return tell_ways(alloc, line, checked);
    }
    if what == "table" {
        return tell_table(alloc, line, checked, rest);
    }
    if what == "streams" {
        return tell_streams(alloc, line, checked, inputs);
    }
    if what == "outputs" {
        return tell_outputs(alloc, line, checked, inputs);
    }
    Err(Memory)
}

/// Appends a value as it is shown.
pub fn tell_value<T: Debug + Drop>(line: &mut String, value: T) -> Result<(), Memory> {
    write!(line, " {value:?}")?;
    Ok(())
}

/// Appends a text.
pub fn tell_text(line: &mut String, text: &str) -> Result<(), Memory> {
    line.push_str(text)?;
    Ok(())
}

/// Appends what a cell has; `.` is an absence.
pub fn tell_cell(line: &mut String, cell: Cell) -> Result<(), Memory> {
    match cell {
        Cell::Absent => tell_text(line, " ."),
        Cell::Here(Value::Int(n)) => tell_value(line, n),
        Cell::Here(Value::Bool(b)) => tell_value(line, b),
    }
}

/// Appends cells, and a semicolon behind them.
pub fn tell_cells(line: &mut String, cells: &[Cell]) -> Result<(), Memory> {
    for cell in cells {
        tell_cell(line, *cell)?;
    }
    tell_text(line, ";")
}
