// The program, the setup and the inputs of a run.
ghost use Rattle.std.specs.Prelude.{◌≡◌, ◌++◌, ◌<◌, ◌-◌, ◌^◌};
ghost use Rattle.lt_io.specs.Counts.{MayFail};
ghost use Rattle.lt_answer.specs.Alone.{given_word};
ghost use Rattle.lt_front.specs.Checked.{examined_part};
ghost use Rattle.lt_base.specs.Main.{InputsFitMain};
ghost use Rattle.lt_load.specs.OnFiles.{ChoosesSetup, LoadsFitting, LoadsRows, LoadsRun, LoadsSetup};
ghost use Rattle.lt_compile.specs.Sites.{IsSited};
ghost use Rattle.lt_load.specs.Sites.{loaded_of};

use crate::loading::load_flat;
use crate::{CommandFault, Loaded, load_config, load_inputs};
use lt_base::{Inputs, Or};
use lt_compile::{Site, place_program};
use lt_config::Config;
use lt_front::Checked;
use lt_io::Files;
use std::alloc::Global;

/// Loads what a run is of. The program passes all checks, its placement by the setup is legal, the setup's timing is accepted, it has
/// the window where links lose messages, and the inputs are those of `main`. Without a setup there is one node, under back-pressure.
/// The files are read in this order: the program, the setup and the inputs.
pub fn load<F: Files>(
    alloc: Global,
    files: &mut F,
    program: &str,
    inputs: &str,
    config: Option<&str>,
) -> Result<Loaded, Or<CommandFault>>
    requires { MayFail (F.state files.old).faults }
    ensures { LoadsRun program.now inputs.now (given_word config.entry) (F.state files.old) (F.state files.new) result }
{
    let checked = load_flat(alloc, files, program)?;
    load_setup(alloc, files, checked, inputs, config)
}

// Loads a program's setup, and then its inputs.
fn load_setup<F: Files>(
    alloc: Global,
    files: &mut F,
    checked: Checked,
    inputs: &str,
    config: Option<&str>,
) -> Result<Loaded, Or<CommandFault>>
    requires { MayFail (F.state files.old).faults }
    ensures { LoadsSetup inputs.now (given_word config.entry) (examined_part checked) (F.state files.old) (F.state files.new) result }
{
    let setup = read_setup(alloc, files, config)?;
    load_fitting(alloc, files, checked, setup, inputs)
}

// The setup of a file, or the plain one.
fn read_setup<F: Files>(
    alloc: Global,
    files: &mut F,
    config: Option<&str>,
) -> Result<Config, Or<CommandFault>>
    requires { MayFail (F.state files.old).faults }
    ensures { ChoosesSetup (given_word config.entry) (F.state files.old) (F.state files.new) result }
{
    match config {
        Some(config) => load_config(alloc, files, config),
        None => Ok(Config::plain(alloc)?),
    }
}

/// Loads a program's inputs, if the setup fits it.
pub(crate) fn load_fitting<F: Files>(
    alloc: Global,
    files: &mut F,
    checked: Checked,
    setup: Config,
    inputs: &str,
) -> Result<Loaded, Or<CommandFault>>
    requires { MayFail (F.state files.old).faults }
    ensures { LoadsFitting inputs.now (examined_part checked) setup (F.state files.old) (F.state files.new) result }
{
    let site = place_program(alloc, &checked, setup)?;
    load_rows(alloc, files, checked, site, inputs)
}

// Loads the inputs of a program at its site.
fn load_rows<F: Files>(
    alloc: Global,
    files: &mut F,
    checked: Checked,
    site: Site,
    inputs: &str,
) -> Result<Loaded, Or<CommandFault>>
    requires count { MayFail (F.state files.old).faults }
    requires sited { IsSited checked.flat site }
    ensures { LoadsRows inputs.now checked site (F.state files.old) (F.state files.new) result }
{
    match load_inputs(alloc, files, inputs, &checked.program) {
        Ok(table) => Ok(with_inputs(checked, site, table)),
        Err(fault) => {
            drop(checked);
            drop(site);
            Err(fault)
        }
    }
}

// A program at its site with its inputs.
fn with_inputs(checked: Checked, site: Site, inputs: Inputs) -> Loaded
    requires sited { IsSited checked.flat site }
    requires fit { InputsFitMain checked.program inputs }
    ensures { result ≡ loaded_of checked site inputs }
{
    checked.invariant_holds();
    checked.program.invariant_holds();
    Loaded {
        checked,
        layout: site.layout,
        shape: site.shape,
        timing: site.timing,
        inputs,
        pace: site.pace,
    }
}
