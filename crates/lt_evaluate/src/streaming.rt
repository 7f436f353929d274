// The streams of a function's outputs by a machine: a step for each row.

ghost use Rattle.std.specs.Prelude.{◌≡◌, ◌<◌, ◌≤◌, ◌+◌, ◌*◌, ◌++◌, ◌∷◌, List, [], IfOk, OnOk, length, replicate};
ghost use Rattle.lt_base.specs.declared.value.Value.{Value as Datum};
ghost use Rattle.lt_base.specs.declared.value.Cell.TheVariants.{Absent as AbsentCell};
ghost use Rattle.lt_base.specs.Program.{Function};
ghost use Rattle.lt_step.specs.Run.{HasRowValues};
ghost use Rattle.lt_evaluate.specs.Columns.{GrowsBy, HasColumns, HasStepped};

use crate::columns::{empty_columns, push_cells};
use lt_base::{Cell, Func, Inputs, List, Memory, Steps, Value};
use lt_machine::Machine;
use lt_net_start::{read_row, room_for};
use std::alloc::Global;
use std::sync::ledger::{Blank, Ledger};

// Places for the cells of the outputs.
fn absent(alloc: Global, number: usize) -> Result<Vec<Cell>, Memory>
    ensures { IfOk result (λ cells. cells.items ≡ replicate number AbsentCell) }
{
    Ok(vec![in alloc; Cell::Absent; number]?)
}

// One row: a step, whose cells go into their columns.
fn take_row<M: Machine, L: Ledger>(
    machine: &mut M,
    values: &[Value],
    outs: &mut Vec<Cell>,
    columns: &mut Vec<List<Cell>>,
    steps: &mut Steps<L>,
) -> Result<(), Memory>
    requires left { 0 < M.left machine.old }
    requires values { length values.now ≡ M.inputs machine.old }
    requires outs { length outs.old.items ≡ M.outputs machine.old }
    requires columns { length columns.old.items ≡ M.outputs machine.old }
    ensures stands { (f : Function) (rows : List (List Datum)) → M.stands machine.old f rows → M.stands machine.new f (rows ++ values.now ∷ []) }
    ensures left { M.left machine.old ≡ M.left machine.new + 1 }
    ensures made { M.made machine.new ≡ M.made machine.old + 1 }
    ensures size { M.size machine.new ≡ M.size machine.old }
    ensures ticks { steps.new ≤ steps.old + M.size machine.old }
    ensures outs { length outs.new.items ≡ length outs.old.items }
    ensures columns { OnOk result (GrowsBy (M.stands machine.old) values.now columns.old.items columns.new.items) }
{
    machine.step(values, outs, steps);
    push_cells(columns, outs)?;
    Ok(())
}

// All rows, in turn.
fn take_rows<M: Machine, L: Ledger>(
    machine: &mut M,
    function: &Func,
    inputs: &Inputs,
    values: &mut Vec<Value>,
    outs: &mut Vec<Cell>,
    columns: &mut Vec<List<Cell>>,
    steps: &mut Steps<L>,
) -> Result<(), Memory>
    requires stands { M.stands machine.old function.now [] }
    requires unmade { M.made machine.old ≡ 0 }
    requires left { length inputs.now.rows ≤ M.left machine.old }
    requires width { inputs.now.width ≡ function.now.n_in }
    requires rows { HasRowValues function.now.n_in inputs.now.rows }
    requires values { length values.old.items ≡ function.now.n_in }
    requires outs { length outs.old.items ≡ length function.now.outs }
    requires columns { HasColumns function.now [] columns.old.items }
    ensures columns { OnOk result (HasColumns function.now inputs.now.rows columns.new.items) }
    ensures stepped { OnOk result (HasStepped M.Machine function.now inputs.now.rows machine.new) }
    ensures ticks { steps.new ≤ steps.old + M.size machine.old * length inputs.now.rows }
{
    for k in 0..inputs.rows() {
        read_row(inputs, k, function.n_in, values);
        take_row(machine, values, outs, columns, steps)?;
    }
    Ok(())
}

// The same with room for a row and for the cells of a step.
fn fill_columns<M: Machine, L: Ledger>(
    alloc: Global,
    machine: &mut M,
    function: &Func,
    inputs: &Inputs,
    columns: &mut Vec<List<Cell>>,
    blank: Blank,
) -> Result<(), Memory>
    requires stands { M.stands machine.old function.now [] }
    requires unmade { M.made machine.old ≡ 0 }
    requires left { length inputs.now.rows ≤ M.left machine.old }
    requires width { inputs.now.width ≡ function.now.n_in }
    requires rows { HasRowValues function.now.n_in inputs.now.rows }
    requires columns { HasColumns function.now [] columns.old.items }
    requires name { blank.name ≡ L.name }
    requires parts { blank.parts ≡ L.parts }
    requires some { 0 < blank.parts }
    ensures columns { OnOk result (HasColumns function.now inputs.now.rows columns.new.items) }
    ensures stepped { OnOk result (HasStepped M.Machine function.now inputs.now.rows machine.new) }
{
    let mut steps = Steps::<L>::new(blank);
    let mut values = room_for(alloc, function.n_in)?;
    let mut outs = absent(alloc, function.outs.len())?;
    let taken = take_rows(
        machine,
        function,
        inputs,
        &mut values,
        &mut outs,
        columns,
        &mut steps,
    );
    drop(outs);
    drop(values);
    taken
}

/// The streams of the outputs of a function on all rows, by a machine that runs it and has made no step: it makes one for each row.
pub(crate) fn streams_by<M: Machine, L: Ledger>(
    alloc: Global,
    machine: &mut M,
    function: &Func,
    inputs: &Inputs,
    blank: Blank,
) -> Result<List<List<Cell>>, Memory>
    requires stands { M.stands machine.old function.now [] }
    requires unmade { M.made machine.old ≡ 0 }
    requires left { length inputs.now.rows ≤ M.left machine.old }
    requires width { inputs.now.width ≡ function.now.n_in }
    requires rows { HasRowValues function.now.n_in inputs.now.rows }
    requires name { blank.name ≡ L.name }
    requires parts { blank.parts ≡ L.parts }
    requires some { 0 < blank.parts }
    ensures columns { IfOk result (HasColumns function.now inputs.now.rows) }
    ensures stepped { OnOk result (HasStepped M.Machine function.now inputs.now.rows machine.new) }
{
    let number = function.outs.len();
    let mut columns = empty_columns(alloc, number, inputs.rows() as usize)?;
    match fill_columns::<M, L>(alloc, machine, function, inputs, &mut columns, blank) {
        Ok(()) => Ok(List::of(columns)),
        Err(Memory) => {
            drop(columns);
            Err(Memory)
        }
    }
}
