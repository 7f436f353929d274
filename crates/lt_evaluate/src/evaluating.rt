// The streams of a program's outputs on its inputs.
ghost use Rattle.std.specs.Prelude.{◌≡◌, ◌<◌, ◌≤◌, true, false, length, IfOk, IfErr, OnOk};
ghost use Rattle.lt_base.specs.Checked.{CheckedProgram};
ghost use Rattle.lt_base.specs.Limits.{most_cells};
ghost use Rattle.lt_base.specs.Main.{HasOutputStreams, InputsFitMain, cell_count};
ghost use Rattle.lt_answer.specs.Answered.{Refuses};
ghost use Rattle.lt_place.specs.Sizes.{IsCompilable};
ghost use Rattle.lt_step.specs.Run.{HasRowValues};
ghost use Rattle.lt_evaluate.specs.Columns.{HasColumns, StepsFunction};
ghost use Rattle.lt_evaluate.specs.Main.{cells_verdict};

use crate::streaming::streams_by;
use lt_base::limits::GREATEST_CELLS;
use lt_base::{Cell, Inputs, List, Memory, Or, Program, sizes};
use lt_compile::compile_part;
use lt_front::Checked;
use lt_load::CommandFault;
use lt_machine::{ImportedOperators, StepMachine};
use lt_norm::Flat;
use std::alloc::Global;
use std::marker::Brand;
use std::sync::ledger::Blank;

// Whether the weight of `main` times the number of rows is above the limit.
fn is_too_many(alloc: Global, program: &Program, inputs: &Inputs) -> Result<bool, Memory>
    requires { CheckedProgram program.now }
    ensures more { IfOk result (λ b. b ≡ true → most_cells < cell_count program.now inputs.now.rows) }
    ensures most { IfOk result (λ b. b ≡ false → cell_count program.now inputs.now.rows ≤ most_cells) }
{
    let weight = sizes(alloc, program)?.weight;
    Ok(weight.saturating_mul(u64::from(inputs.rows())) > GREATEST_CELLS)
}

/// Refuses a program that has too many cells on these inputs.
pub fn limit_cells(
    alloc: Global,
    program: &Program,
    inputs: &Inputs,
) -> Result<(), Or<CommandFault>>
    requires { CheckedProgram program.now }
    ensures few { OnOk result (cell_count program.now inputs.now.rows ≤ most_cells) }
    ensures refused { IfErr result (Refuses (cells_verdict program.now inputs.now.rows)) }
{
    let too_many = is_too_many(alloc, program, inputs)?;
    if too_many {
        return Err(Or::Fault(CommandFault::TooManyCells));
    }
    Ok(())
}

// The streams of a function's outputs, and the machine whose steps showed them.
#[derive(Drop)]
struct Evaluated {
    columns: List<List<Cell>>,
    machine: StepMachine<ImportedOperators>,
}

// Evaluates a flat function on all rows, by a step of its code for each.
fn evaluate_flat(alloc: Global, flat: &Flat, inputs: &Inputs) -> Result<Evaluated, Memory>
    requires compilable { IsCompilable flat.now.func }
    requires width { inputs.now.width ≡ flat.now.func.n_in }
    requires rows { HasRowValues flat.now.func.n_in inputs.now.rows }
    ensures columns { IfOk result (λ evaluated. HasColumns flat.now.func inputs.now.rows evaluated.columns) }
    ensures steps_code { IfOk result (λ evaluated. StepsFunction flat.now.func (length inputs.now.rows) evaluated.machine) }
{
    let mut machine = compile_part(alloc, flat, ImportedOperators, inputs.rows())?;
    let columns = streams_by::<_, Brand>(alloc, &mut machine, &flat.func, inputs, Blank::new(1))?;
    Ok(Evaluated { columns, machine })
}

/// The streams of the outputs of `main`, in their order: those of the flat form, by a step of its machine for each row.
pub(crate) fn evaluate(
    alloc: Global,
    checked: &Checked,
    inputs: &Inputs,
) -> Result<List<List<Cell>>, Memory>
    requires { InputsFitMain checked.now.program inputs.now }
    ensures { IfOk result (HasOutputStreams checked.now.program inputs.now.rows) }
{
    checked.invariant_holds();
    checked.program.invariant_holds();
    let evaluated = evaluate_flat(alloc, &checked.flat, inputs)?;
    Ok(evaluated.columns)
}
