// What a command reads where a protocol may be no more than its timing.
ghost use Rattle.std.specs.Prelude.{◌≡◌, ◌++◌, ◌<◌, ◌-◌, ◌^◌, Some};
ghost use Rattle.lt_io.specs.Counts.{MayFail};
ghost use Rattle.lt_answer.specs.Answered.{Settles};
ghost use Rattle.lt_front.specs.Checked.{examined_part};
ghost use Rattle.lt_load.specs.Errands.{config_errand};
ghost use Rattle.lt_load.specs.OnFiles.{LoadsPlain, LoadsPlainSetup, ReadsFile};
ghost use Rattle.lt_load.specs.Pacing.{plain_config_verdict, unpaced_verdict};

use crate::loading::load_flat;
use crate::planning::load_fitting;
use crate::{CommandFault, Loaded, load_config};
use lt_base::{Name, Or};
use lt_config::{Config, ConfigFault, ConfigKind, Pace};
use lt_front::Checked;
use lt_io::Files;
use std::alloc::Global;

/// Loads what `load` does, with a setup in which no link loses messages and no node leads. The files are read in the same order.
pub fn load_plain<F: Files>(
    alloc: Global,
    files: &mut F,
    program: &str,
    inputs: &str,
    config: &str,
) -> Result<Loaded, Or<CommandFault>>
    requires { MayFail (F.state files.old).faults }
    ensures { LoadsPlain program.now inputs.now config.now (F.state files.old) (F.state files.new) result }
{
    let checked = load_flat(alloc, files, program)?;
    load_plain_setup(alloc, files, checked, inputs, config)
}

// Loads a program's setup, and then its inputs.
fn load_plain_setup<F: Files>(
    alloc: Global,
    files: &mut F,
    checked: Checked,
    inputs: &str,
    config: &str,
) -> Result<Loaded, Or<CommandFault>>
    requires { MayFail (F.state files.old).faults }
    ensures { LoadsPlainSetup inputs.now config.now (examined_part checked) (F.state files.old) (F.state files.new) result }
{
    let setup = load_plain_config(alloc, files, config)?;
    load_fitting(alloc, files, checked, setup, inputs)
}

/// The setup of a file in which no link loses messages and no node leads. Any other is refused as one whose protocol is outside the range.
pub fn load_plain_config<F: Files>(
    alloc: Global,
    files: &mut F,
    name: &str,
) -> Result<Config, Or<CommandFault>>
    requires { MayFail (F.state files.old).faults }
    ensures { ReadsFile name.now config_errand plain_config_verdict (F.state files.old) (F.state files.new) result }
{
    let setup = load_config(alloc, files, name)?;
    refuse_unpaced(alloc, setup)
}

// The setup, if its protocol is no more than its timing.
#[tactic(auto, unfolding(crate::specs::Pacing::unpaced_verdict))]
fn refuse_unpaced(alloc: Global, setup: Config) -> Result<Config, Or<CommandFault>>
    ensures { Settles (unpaced_verdict setup) result }
{
    match setup.pace {
        Pace::Plain => Ok(setup),
        Pace::Lossy(_) | Pace::Leader(_) => {
            let key = Name::from_str(alloc, "protocol")?;
            Err(Or::Fault(CommandFault::Config(ConfigFault {
                kind: ConfigKind::OutOfRange,
                key,
            })))
        }
    }
}
