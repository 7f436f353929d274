// The files that a command reads before it runs.
ghost use Rattle.std.specs.Prelude.{◌≡◌, ◌≤◌, ◌<◌, ◌-◌, ◌^◌, IfOk, length};
ghost use Rattle.lt_io.specs.Counts.{MayFail};
ghost use Rattle.lt_answer.specs.World.{alone};
ghost use Rattle.lt_answer.specs.Answered.{Answered};
ghost use Rattle.lt_answer.specs.Rules.{Shown};
ghost use Rattle.lt_front.specs.Printed.{canonical_text};
ghost use Rattle.lt_base.specs.Main.{InputsFitMain};
ghost use Rattle.lt_load.specs.Errands.{whole_errand, program_errand, config_errand, inputs_errand};
ghost use Rattle.lt_load.specs.OnFiles.{ReadsFile};
ghost use Rattle.lt_load.specs.Loaded.{Flattened, limit_of, whole_verdict, within_file_limit, program_verdict, config_verdict, inputs_verdict};
ghost use Rattle.lt_load.specs.Found.{fetched};

use crate::raised::raise_fault;
use crate::{CommandFault, What};
use lt_base::limits::{
    MOST_CONFIG_BYTES, MOST_INPUTS_BYTES, MOST_OBSERVER_BYTES, MOST_PROGRAM_BYTES,
    MOST_SCHEDULE_BYTES,
};
use lt_base::{Inputs, List, Or, Program};
use lt_compile::{check_program, front, print_program};
use lt_config::{Config, read_config};
use lt_front::{Checked, Examined};
use lt_inputs::read_inputs;
use lt_io::{Failed, Files, Whole, read_file};
use lt_load_fit::main_of;
use std::alloc::Global;

// The most bytes of a file.
fn limit(what: What) -> usize
    ensures { result ≡ limit_of what }
{
    match what {
        What::ProgramBytes => MOST_PROGRAM_BYTES,
        What::ConfigBytes => MOST_CONFIG_BYTES,
        What::InputsBytes => MOST_INPUTS_BYTES,
        What::ObserverBytes => MOST_OBSERVER_BYTES,
        What::ScheduleBytes => MOST_SCHEDULE_BYTES as usize,
    }
}

/// The bytes of a file that is read whole.
pub fn fetch_within<F: Files>(
    alloc: Global,
    files: &mut F,
    name: &str,
    what: What,
) -> Result<List<u8>, Or<CommandFault>>
    requires { MayFail (F.state files.old).faults }
    ensures answered { ReadsFile name.now (whole_errand what) (whole_verdict what) (F.state files.old) (F.state files.new) result }
    ensures short { IfOk result (λ bytes. length bytes ≤ limit_of what) }
{
    let read = read_file(alloc, files, name, limit(what));
    bytes_or_fault(what, read)
}

// What was read of a file, as a command's.
fn bytes_or_fault(what: What, read: Result<Whole, Or<Failed>>) -> Result<List<u8>, Or<CommandFault>>
    ensures { result ≡ fetched what read }
{
    match read {
        Ok(whole) => within(what, whole),
        Err(Or::Fault(_)) => Err(Or::Fault(CommandFault::Read)),
        Err(Or::Memory) => Err(Or::Memory),
    }
}

// The bytes of a whole file, if they are not too many. Files that do not tell their bytes could give more than they were asked for.
fn within(what: What, whole: Whole) -> Result<List<u8>, Or<CommandFault>>
    ensures { result ≡ within_file_limit what whole }
{
    match whole {
        Whole::Bytes(bytes) => {
            if bytes.len() > limit(what) {
                return Err(Or::Fault(CommandFault::Limit(what)));
            }
            Ok(bytes)
        }
        Whole::TooLong => Err(Or::Fault(CommandFault::Limit(what))),
    }
}

/// Reads a program's file, and the program through all checks.
pub fn load_program<F: Files>(
    alloc: Global,
    files: &mut F,
    name: &str,
) -> Result<Examined, Or<CommandFault>>
    requires { MayFail (F.state files.old).faults }
    ensures { ReadsFile name.now program_errand program_verdict (F.state files.old) (F.state files.new) result }
{
    let bytes = fetch_within(alloc, files, name, What::ProgramBytes)?;
    raise_fault(check_program(alloc, &bytes), CommandFault::Program)
}

/// The canonical text of the program of a file that passes all checks. Neither its tree nor the program is kept, so this takes less memory
/// than to print what `load_program` answers.
pub fn load_text<F: Files>(
    alloc: Global,
    files: &mut F,
    name: &str,
) -> Result<List<u8>, Or<CommandFault>>
    requires { MayFail (F.state files.old).faults }
    ensures { ReadsFile name.now program_errand (λ file. Shown canonical_text (program_verdict file)) (F.state files.old) (F.state files.new) result }
{
    let bytes = fetch_within(alloc, files, name, What::ProgramBytes)?;
    raise_fault(print_program(alloc, &bytes), CommandFault::Program)
}

/// Reads a program's file as `load_program` does, and puts the program into its flat form.
pub fn load_flat<F: Files>(
    alloc: Global,
    files: &mut F,
    name: &str,
) -> Result<Checked, Or<CommandFault>>
    requires { MayFail (F.state files.old).faults }
    ensures { ReadsFile name.now program_errand (λ file. Flattened (program_verdict file)) (F.state files.old) (F.state files.new) result }
{
    let bytes = fetch_within(alloc, files, name, What::ProgramBytes)?;
    raise_fault(front(alloc, &bytes), CommandFault::Program)
}

/// Reads a setup's file.
pub fn load_config<F: Files>(
    alloc: Global,
    files: &mut F,
    name: &str,
) -> Result<Config, Or<CommandFault>>
    requires { MayFail (F.state files.old).faults }
    ensures { ReadsFile name.now config_errand config_verdict (F.state files.old) (F.state files.new) result }
{
    let bytes = fetch_within(alloc, files, name, What::ConfigBytes)?;
    raise_fault(read_config(alloc, &bytes), CommandFault::Config)
}

/// Reads the file of a program's inputs: a row of values for each instant.
pub fn load_inputs<F: Files>(
    alloc: Global,
    files: &mut F,
    name: &str,
    program: &Program,
) -> Result<Inputs, Or<CommandFault>>
    requires { MayFail (F.state files.old).faults }
    ensures answered { ReadsFile name.now inputs_errand (inputs_verdict program.now) (F.state files.old) (F.state files.new) result }
    ensures fit { IfOk result (InputsFitMain program.now) }
{
    program.invariant_holds();
    let bytes = fetch_within(alloc, files, name, What::InputsBytes)?;
    raise_fault(
        read_inputs(alloc, &bytes, main_of(program)),
        CommandFault::Inputs,
    )
}
