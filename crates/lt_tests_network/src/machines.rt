// What the machines of a program show on rows of an int and a truth value, as `2 true, 1 false`: of one with both as inputs and two
// outputs, or of one with the int alone as its input and one output.
ghost use Rattle.std.specs.Prelude.{◌≡◌, ◌<◌, ◌≤◌, ◌*◌, ◌^◌, [], length, true, IfOk};
ghost use Rattle.lt_base.specs.Dependence.{Causal};
ghost use Rattle.lt_base.specs.Typing.{TypedFunction};
ghost use Rattle.lt_base.specs.Clocking.{ClockedFunction};
ghost use Rattle.lt_base.specs.Sizes.{weight_with};
ghost use Rattle.lt_step.specs.Compile.{CodeOf};
ghost use Rattle.lt_step.specs.Size.{extent};

use crate::answers::{tell_cells, tell_value};
use lt_base::{Cell, Func, Memory, Or, Steps, Value};
use lt_cause::order_of;
use lt_front::Checked;
use lt_machine::{ImportedOperators, Machine, StepMachine, TableMachine};
use lt_norm::Flat;
use lt_step::{Code, compile};
use std::alloc::Global;
use std::marker::Brand;
use std::sync::ledger::{Blank, Ledger};

// An int and a truth value as inputs.
type Row = (i64, bool);

// The steps that a machine can make.
const STEPS: u32 = 3;

// So few steps are made by trees, and these are enough for flat code.
const FEW: u32 = 15;

const ENOUGH: u32 = 16;

fn row_of(text: &str) -> Option<Row> {
    let (int, truth) = text.split_once(' ')?;
    let int = int.parse::<i64>().ok()?;
    if truth == "true" {
        return Some((int, true));
    }
    if truth == "false" {
        return Some((int, false));
    }
    None
}

// The rows of a text; none where one is no row, or there are more than a machine can make steps.
fn rows_of(alloc: Global, text: &str) -> Result<Vec<Row>, Memory>
    ensures { IfOk result (λ rows. length rows.items ≤ 3) }
{
    let mut rows = Vec::new(alloc);
    for part in text.split(", ") {
        match row_of(part) {
            Some(row) => rows.push(row)?,
            None => return Err(Memory),
        }
    }
    if rows.len() > STEPS as usize {
        return Err(Memory);
    }
    Ok(rows)
}

// Whether a function has as many inputs, and as many outputs.
fn is_square(function: &Func, sides: u32) -> bool
    ensures inputs { result ≡ true → function.now.n_in ≡ sides }
    ensures outputs { result ≡ true → length function.now.outs ≡ sides }
{
    function.n_in == sides && function.outs.len() == sides as usize
}

// Tells the cells of the outputs on each row: of one output that has the int as its input, or of two that have both.
fn tell_rows<M: Machine, L: Ledger>(
    line: &mut String,
    machine: &mut M,
    function: &Func,
    rows: &[Row],
    blank: Blank,
) -> Result<(), Memory>
    requires stands { M.stands machine.old function.now [] }
    requires left { length rows.now ≤ M.left machine.old }
    requires name { blank.name ≡ L.name }
    requires parts { blank.parts ≡ L.parts }
    requires some { 0 < blank.parts }
{
    if is_square(function, 1) {
        return tell_ints::<M, L>(line, machine, function, rows, blank);
    }
    if is_square(function, 2) {
        return tell_pairs::<M, L>(line, machine, function, rows, blank);
    }
    Err(Memory)
}

// The same of a function of an int.
fn tell_ints<M: Machine, L: Ledger>(
    line: &mut String,
    machine: &mut M,
    function: &Func,
    rows: &[Row],
    blank: Blank,
) -> Result<(), Memory>
    requires stands { M.stands machine.old function.now [] }
    requires inputs { function.now.n_in ≡ 1 }
    requires outputs { length function.now.outs ≡ 1 }
    requires left { length rows.now ≤ M.left machine.old }
    requires name { blank.name ≡ L.name }
    requires parts { blank.parts ≡ L.parts }
    requires some { 0 < blank.parts }
{
    let mut steps = Steps::<L>::new(blank);
    for (x, _) in rows {
        let mut outs = [Cell::Absent];
        machine.step(&[Value::Int(*x)], &mut outs, &mut steps);
        tell_cells(line, outs.as_slice())?;
    }
    Ok(())
}

// The same of a function of an int and a truth value, with two outputs.
fn tell_pairs<M: Machine, L: Ledger>(
    line: &mut String,
    machine: &mut M,
    function: &Func,
    rows: &[Row],
    blank: Blank,
) -> Result<(), Memory>
    requires stands { M.stands machine.old function.now [] }
    requires inputs { function.now.n_in ≡ 2 }
    requires outputs { length function.now.outs ≡ 2 }
    requires left { length rows.now ≤ M.left machine.old }
    requires name { blank.name ≡ L.name }
    requires parts { blank.parts ≡ L.parts }
    requires some { 0 < blank.parts }
{
    let mut steps = Steps::<L>::new(blank);
    for (x, c) in rows {
        let ins = [Value::Int(*x), Value::Bool(*c)];
        let mut outs = [Cell::Absent, Cell::Absent];
        machine.step(&ins, &mut outs, &mut steps);
        tell_cells(line, outs.as_slice())?;
    }
    Ok(())
}

// The step code of a flat function.
fn code_of(alloc: Global, flat: &Flat) -> Result<Code, Memory>
    requires typed { TypedFunction [] flat.now.func }
    requires clocked { ClockedFunction [] flat.now.func }
    requires causal { Causal flat.now.func }
    requires variables { length flat.now.func.decls < 2 ^ 32 }
    requires equations { length flat.now.func.eqs < 2 ^ 32 }
    requires slots { weight_with (λ _. 0) flat.now.func < 2 ^ 32 }
    requires size { 8 * extent flat.now.func < 2 ^ 64 }
    ensures { IfOk result (CodeOf flat.now.func) }
{
    let order = order_of(alloc, &flat.func)?;
    compile(alloc, flat, &order)
}

// Tells what a machine of this code shows.
fn run_code(
    alloc: Global,
    line: &mut String,
    flat: &Flat,
    code: Code,
    rows: &Vec<Row>,
) -> Result<(), Memory>
    requires code { CodeOf flat.now.func code }
    requires rows { length rows.now.items ≤ 3 }
{
    let mut machine = StepMachine::start(alloc, code, ImportedOperators, STEPS)?;
    tell_rows::<_, Brand>(
        line,
        &mut machine,
        &flat.func,
        rows.as_slice(),
        Blank::new(1),
    )
}

/// Tells what the machine of a program's step code shows.
pub fn tell_code(
    alloc: Global,
    line: &mut String,
    checked: &Checked,
    text: &str,
) -> Result<(), Memory> {
    let rows = rows_of(alloc, text)?;
    checked.invariant_holds();
    let code = code_of(alloc, &checked.flat)?;
    run_code(alloc, line, &checked.flat, code, &rows)
}

/// Tells what the machine that keeps all values of a program shows.
pub fn tell_table(
    alloc: Global,
    line: &mut String,
    checked: &Checked,
    text: &str,
) -> Result<(), Memory> {
    let rows = rows_of(alloc, text)?;
    checked.invariant_holds();
    let flat = &checked.flat;
    let mut machine = TableMachine::start(alloc, flat, STEPS)?;
    tell_rows::<_, Brand>(
        line,
        &mut machine,
        &flat.func,
        rows.as_slice(),
        Blank::new(1),
    )
}

// Tells whether the machine of this code that is to make so many steps takes flat code.
fn tell_start(
    alloc: Global,
    line: &mut String,
    flat: &Flat,
    code: Code,
    rows: u32,
) -> Result<(), Memory>
    requires { CodeOf flat.now.func code }
{
    let machine = StepMachine::start(alloc, code, ImportedOperators, rows)?;
    tell_value(line, machine.is_flat())
}

fn tell_way(alloc: Global, line: &mut String, checked: &Checked, rows: u32) -> Result<(), Memory> {
    checked.invariant_holds();
    let code = code_of(alloc, &checked.flat)?;
    tell_start(alloc, line, &checked.flat, code, rows)
}

/// Tells whether the machine of a program's step code takes flat code: one for few steps, and one for enough of them.
pub fn tell_ways(alloc: Global, line: &mut String, checked: &Checked) -> Result<(), Memory> {
    tell_way(alloc, line, checked, FEW)?;
    tell_way(alloc, line, checked, ENOUGH)
}
