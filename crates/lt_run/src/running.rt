// A run of a program along a schedule.
ghost use Rattle.std.specs.Prelude.{◌≡◌, ◌<◌, ◌-◌, ◌^◌, [], IfOk};
ghost use Rattle.lt_io.specs.Counts.{MayFail};
ghost use Rattle.lt_io.specs.FabricState.{OpensOnce};
ghost use Rattle.lt_answer.specs.Alone.{given_word};
ghost use Rattle.lt_load.specs.Near.{IsReadNear};
ghost use Rattle.lt_run.specs.Run.{AsCommand, HasOutputs, LeavesUnloaded, RunsFiles, RunsLoaded};

use crate::RunFault;
use crate::coded::{replay_code, replay_whole};
use lt_arch::Shape;
use lt_base::{Memory, Or};
use lt_evaluate::Outputs;
use lt_io::{Fabric, Files};
use lt_load::{CommandFault, Loaded, What, load};
use lt_machine::ImportedOperators;
use std::alloc::Global;

/// Runs a program on the nodes of a setup, or on one node without a setup: each node's machine makes a step for each instant that
/// the node executes along the schedule, and what crosses between nodes is sent over the fabric, which has no channel yet. Each
/// output is given with a cell for each instant that its node executed. The files are read in this order: the program, the setup,
/// the inputs and the schedule. The channels are opened once the inputs are read.
pub fn run<F: Files, W: Fabric>(
    alloc: Global,
    files: &mut F,
    fabric: &mut W,
    program: &str,
    inputs: &str,
    schedule: &str,
    config: Option<&str>,
) -> Result<Outputs, Or<CommandFault>>
    requires count { MayFail (F.state files.old).faults }
    requires link_count { MayFail (W.state fabric.old).faults }
    requires empty { (W.state fabric.old).kinds ≡ [] }
    ensures answered { RunsFiles F.state W.state program.now inputs.now schedule.now config.entry files.old files.new fabric.old fabric.new result }
    ensures opens { OpensOnce (W.state fabric.old) (W.state fabric.new) result }
    ensures untouched { LeavesUnloaded (F.state files.old) program.now inputs.now (given_word config.entry) (W.state fabric.old) (W.state fabric.new) }
{
    let loaded = load(alloc, files, program, inputs, config)?;
    run_whole(alloc, files, fabric, loaded, schedule)
}

// Runs what was loaded along the schedule of a file, and gives it away: nothing of a program is copied.
fn run_whole<F: Files, W: Fabric>(
    alloc: Global,
    files: &mut F,
    fabric: &mut W,
    loaded: Loaded,
    schedule: &str,
) -> Result<Outputs, Or<CommandFault>>
    requires count { MayFail (F.state files.old).faults }
    requires link_count { MayFail (W.state fabric.old).faults }
    requires empty { (W.state fabric.old).kinds ≡ [] }
    ensures answered { RunsLoaded loaded schedule.now (F.state files.old) (F.state files.new) (W.state fabric.old) (W.state fabric.new) result }
    ensures near { IsReadNear schedule.now (F.state files.old) (F.state files.new) result }
    ensures opens { OpensOnce (W.state fabric.old) (W.state fabric.new) result }
{
    match copy_shape(&loaded) {
        Ok(shape) => run_with(alloc, files, fabric, loaded, &shape, schedule),
        Err(Memory) => {
            drop(loaded);
            Err(Or::Memory)
        }
    }
}

// A copy of its shape.
fn copy_shape(loaded: &Loaded) -> Result<Shape, Memory>
    ensures { IfOk result (λ shape. shape ≡ loaded.now.shape) }
{
    let shape = loaded.shape.copy()?;
    Ok(shape)
}

// The same beside a copy of its shape, whose nodes a fault names.
fn run_with<F: Files, W: Fabric>(
    alloc: Global,
    files: &mut F,
    fabric: &mut W,
    loaded: Loaded,
    shape: &Shape,
    schedule: &str,
) -> Result<Outputs, Or<CommandFault>>
    requires same { shape.now ≡ loaded.shape }
    requires count { MayFail (F.state files.old).faults }
    requires link_count { MayFail (W.state fabric.old).faults }
    requires empty { (W.state fabric.old).kinds ≡ [] }
    ensures answered { RunsLoaded loaded schedule.now (F.state files.old) (F.state files.new) (W.state fabric.old) (W.state fabric.new) result }
    ensures near { IsReadNear schedule.now (F.state files.old) (F.state files.new) result }
    ensures opens { OpensOnce (W.state fabric.old) (W.state fabric.new) result }
{
    match replay_whole(alloc, loaded, files, schedule, fabric, ImportedOperators) {
        Ok(printed) => Ok(printed.into_outputs()),
        Err(fault) => Err(as_command(shape, fault)),
    }
}

// What the outputs show in a replay by step code, with the table of the imported operators.
fn replay_outputs<F: Files, W: Fabric>(
    alloc: Global,
    loaded: &Loaded,
    files: &mut F,
    schedule: &str,
    fabric: &mut W,
) -> Result<Outputs, Or<RunFault>>
    requires count { MayFail (F.state files.old).faults }
    requires link_count { MayFail (W.state fabric.old).faults }
    requires empty { (W.state fabric.old).kinds ≡ [] }
    ensures { HasOutputs loaded.now schedule.now (F.state files.old) (F.state files.new) (W.state fabric.old) (W.state fabric.new) result }
{
    let printed = replay_code(alloc, loaded, files, schedule, fabric, ImportedOperators)?;
    Ok(printed.outputs())
}

/// Runs what was loaded along the schedule of a file, as `run` does.
pub fn run_loaded<F: Files, W: Fabric>(
    alloc: Global,
    files: &mut F,
    fabric: &mut W,
    loaded: &Loaded,
    schedule: &str,
) -> Result<Outputs, Or<CommandFault>>
    requires count { MayFail (F.state files.old).faults }
    requires link_count { MayFail (W.state fabric.old).faults }
    requires empty { (W.state fabric.old).kinds ≡ [] }
    ensures answered { RunsLoaded loaded.now schedule.now (F.state files.old) (F.state files.new) (W.state fabric.old) (W.state fabric.new) result }
    ensures near { IsReadNear schedule.now (F.state files.old) (F.state files.new) result }
    ensures opens { OpensOnce (W.state fabric.old) (W.state fabric.new) result }
{
    match replay_outputs(alloc, loaded, files, schedule, fabric) {
        Ok(outputs) => Ok(outputs),
        Err(fault) => Err(as_command(&loaded.shape, fault)),
    }
}

// A run's fault as the command's, with a copy of the shape whose nodes it names.
fn as_command(shape: &Shape, fault: Or<RunFault>) -> Or<CommandFault>
    ensures { AsCommand shape.now fault result }
{
    match fault {
        Or::Fault(fault) => of_run(shape, fault),
        Or::Memory => Or::Memory,
    }
}

fn of_run(shape: &Shape, fault: RunFault) -> Or<CommandFault>
    ensures { AsCommand shape.now (Or.Fault fault) result }
{
    match fault {
        RunFault::Row { row, fault } => Or::Fault(CommandFault::Row { row, fault }),
        RunFault::Offence { event, offence } => match shape.copy() {
            Ok(shape) => Or::Fault(CommandFault::Offence {
                event,
                offence,
                shape,
            }),
            Err(_) => Or::Memory,
        },
        RunFault::Lossy { event, offence } => match shape.copy() {
            Ok(shape) => Or::Fault(CommandFault::Lossy {
                event,
                offence,
                shape,
            }),
            Err(_) => Or::Memory,
        },
        RunFault::Bytes => Or::Fault(CommandFault::Limit(What::ScheduleBytes)),
        RunFault::Read => Or::Fault(CommandFault::Read),
        RunFault::Link => Or::Fault(CommandFault::Link),
    }
}
