// A program with its setup.
ghost use Rattle.std.specs.Prelude.{◌≡◌, ◌++◌, ◌<◌, ◌-◌, ◌^◌};
ghost use Rattle.lt_io.specs.Counts.{MayFail};
ghost use Rattle.lt_front.specs.Checked.{examined_part};
ghost use Rattle.lt_load.specs.OnFiles.{ChecksWith, FitsSetup};
ghost use Rattle.lt_load.specs.Found.{fitted};

use crate::loading::load_flat;
use crate::{CommandFault, load_config};
use lt_base::Or;
use lt_config::Config;
use lt_front::{Checked, Examined};
use lt_io::Files;
use lt_load_fit::fitting;
use std::alloc::Global;

/// A program that passes all checks and that the file of a setup fits: its placement is legal, its timing is accepted, and it has the
/// window where links lose messages. The program is read before the setup.
pub fn check_with<F: Files>(
    alloc: Global,
    files: &mut F,
    program: &str,
    config: &str,
) -> Result<Examined, Or<CommandFault>>
    requires { MayFail (F.state files.old).faults }
    ensures { ChecksWith program.now config.now (F.state files.old) (F.state files.new) result }
{
    let checked = load_flat(alloc, files, program)?;
    let setup = check_setup(alloc, files, &checked, config);
    fit_program(checked, setup)
}

// The program, if a setup fits it.
fn fit_program(
    checked: Checked,
    setup: Result<Config, Or<CommandFault>>,
) -> Result<Examined, Or<CommandFault>>
    ensures { result ≡ fitted (examined_part checked) setup }
{
    match setup {
        Ok(setup) => {
            drop(setup);
            Ok(checked.into_examined())
        }
        Err(e) => {
            drop(checked);
            Err(e)
        }
    }
}

// The setup of a file, for a program that passed all checks.
fn check_setup<F: Files>(
    alloc: Global,
    files: &mut F,
    checked: &Checked,
    config: &str,
) -> Result<Config, Or<CommandFault>>
    requires { MayFail (F.state files.old).faults }
    ensures { FitsSetup config.now (examined_part checked.now) (F.state files.old) (F.state files.new) result }
{
    let setup = load_config(alloc, files, config)?;
    fitting(alloc, checked, setup)
}
