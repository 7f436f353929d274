// A program at its site by a setup, from their files.
ghost use Rattle.std.specs.Prelude.{◌≡◌, IfOk};
ghost use Rattle.lt_io.specs.Counts.{MayFail};
ghost use Rattle.lt_place.specs.Sizes.{HasCodeRoom};
ghost use Rattle.lt_front.specs.Checked.{examined_part};
ghost use Rattle.lt_compile.specs.Sites.{IsSited};
ghost use Rattle.lt_emit.specs.Loading.{IsCoded, LoadsSetupSite, LoadsSite};

use lt_base::Or;
use lt_compile::{Site, place_program};
use lt_front::Checked;
use lt_io::Files;
use lt_load::{CommandFault, load_config, load_flat};
use std::alloc::Global;

/// Loads where the program of a file runs by the setup of another: the program passes all checks, its placement by the setup is legal,
/// the setup's timing is accepted, and it has the window where links lose messages. The program is read before the setup.
pub fn load_site<F: Files>(
    alloc: Global,
    files: &mut F,
    program: &str,
    config: &str,
) -> Result<Site, Or<CommandFault>>
    requires { MayFail (F.state files.old).faults }
    ensures answered { LoadsSite program.now config.now (F.state files.old) (F.state files.new) result }
    ensures coded { IfOk result IsCoded }
{
    let checked = load_flat(alloc, files, program)?;
    load_setup_site(alloc, files, checked, config)
}

// Loads where a program runs by the setup of a file.
fn load_setup_site<F: Files>(
    alloc: Global,
    files: &mut F,
    checked: Checked,
    config: &str,
) -> Result<Site, Or<CommandFault>>
    requires { MayFail (F.state files.old).faults }
    ensures answered { LoadsSetupSite config.now (examined_part checked) (F.state files.old) (F.state files.new) result }
    ensures coded { IfOk result IsCoded }
{
    checked.invariant_holds();
    let setup = load_config(alloc, files, config)?;
    place_program(alloc, &checked, setup)
}
