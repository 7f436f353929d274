// What a program means on its inputs.
ghost use Rattle.std.specs.Prelude.{◌<◌, ◌-◌, ◌^◌, IfOk};
ghost use Rattle.lt_io.specs.Counts.{MayFail};
ghost use Rattle.lt_answer.specs.Answered.{Settles};
ghost use Rattle.lt_base.specs.Main.{InputsFitMain};
ghost use Rattle.lt_evaluate.specs.Main.{output_streams};
ghost use Rattle.lt_evaluate.specs.Meaning.{Means, MeansOn, PrintsOutputs, streams_verdict};

use crate::Outputs;
use crate::evaluating::{evaluate, limit_cells};
use crate::outputs::print;
use lt_base::{Inputs, Memory, Or};
use lt_compile::flatten;
use lt_front::{Checked, Examined};
use lt_io::Files;
use lt_load::{CommandFault, load_inputs, load_program, main_of};
use std::alloc::Global;

/// What a program means on the inputs, files that are read in this order: each output with a cell for each row of inputs.
pub fn meaning<F: Files>(
    alloc: Global,
    files: &mut F,
    program: &str,
    inputs: &str,
) -> Result<Outputs, Or<CommandFault>>
    requires { MayFail (F.state files.old).faults }
    ensures { Means program.now inputs.now (F.state files.old) (F.state files.new) result }
{
    let checked = load_program(alloc, files, program)?;
    mean(alloc, files, checked, inputs)
}

// What a program means on the inputs of a file.
fn mean<F: Files>(
    alloc: Global,
    files: &mut F,
    checked: Examined,
    inputs: &str,
) -> Result<Outputs, Or<CommandFault>>
    requires { MayFail (F.state files.old).faults }
    ensures { MeansOn checked inputs.now (F.state files.old) (F.state files.new) result }
{
    let table = load_inputs(alloc, files, inputs, &checked.program)?;
    streams(alloc, checked, &table)
}

// The streams of a program's outputs on rows of inputs: the limit on cells comes first.
fn streams(alloc: Global, checked: Examined, table: &Inputs) -> Result<Outputs, Or<CommandFault>>
    requires { InputsFitMain checked.program table.now }
    ensures { Settles (streams_verdict checked table.now) result }
{
    let program = &checked.program;
    program.invariant_holds();
    limit_cells(alloc, program, table)?;
    Ok(flat_streams(alloc, checked, table)?)
}

// The same of a program that has not too many cells, in its flat form.
fn flat_streams(alloc: Global, checked: Examined, table: &Inputs) -> Result<Outputs, Memory>
    requires { InputsFitMain checked.program table.now }
    ensures { IfOk result (PrintsOutputs checked.program (output_streams checked.program table.now.rows)) }
{
    let flattened = flatten(alloc, checked)?;
    outputs_of(alloc, &flattened, table)
}

/// The outputs of a program with their streams on rows of inputs; whether they are too many is not asked.
pub fn outputs_of(alloc: Global, checked: &Checked, table: &Inputs) -> Result<Outputs, Memory>
    requires { InputsFitMain checked.now.program table.now }
    ensures { IfOk result (PrintsOutputs checked.now.program (output_streams checked.now.program table.now.rows)) }
{
    let streams = evaluate(alloc, checked, table)?;
    print(alloc, main_of(&checked.program), streams)
}
