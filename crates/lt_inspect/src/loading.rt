// What a schedule is judged over, from its files.
ghost use Rattle.std.specs.Prelude.{◌≡◌, IfOk};
ghost use Rattle.lt_io.specs.Counts.{MayFail};
ghost use Rattle.lt_answer.specs.Alone.{given_word};
ghost use Rattle.lt_front.specs.Checked.{examined_part};
ghost use Rattle.lt_load_fit.specs.Fits.{HasWindowBy};
ghost use Rattle.lt_load.specs.Errands.{config_errand};
ghost use Rattle.lt_load.specs.OnFiles.{ReadsFile};
ghost use Rattle.lt_inspect.specs.OnFiles.{LoadsPlacedStage, LoadsScene, LoadsSetupStage, LoadsStage};
ghost use Rattle.lt_inspect.specs.Stages.{paced_config_verdict, taken_config_verdict};

use crate::grounding::find_ground;
use crate::scene::Scene;
use crate::setups::Setups;
use crate::stage::Stage;
use lt_base::Or;
use lt_config::Config;
use lt_front::Checked;
use lt_io::Files;
use lt_load::{CommandFault, load_config, load_flat, load_inputs, load_plain_config};
use lt_load_fit::accept_window;
use std::alloc::Global;

/// Loads what a schedule is judged over. The program passes all checks, no node leads in the setup, its placement by the setup is
/// legal, the node that is named, if one is, is one of the setup's, and the inputs are those of `main`. The files are read in this
/// order: the program, the setup and the inputs.
pub fn load_scene<F: Files>(
    alloc: Global,
    files: &mut F,
    program: &str,
    inputs: &str,
    config: &str,
    node: Option<&str>,
) -> Result<Scene, Or<CommandFault>>
    requires { MayFail (F.state files.old).faults }
    ensures { LoadsScene program.now inputs.now config.now (given_word node.entry) (F.state files.old) (F.state files.new) result }
{
    let stage = load_stage(alloc, files, program, inputs, config, node, Setups::Plain)?;
    Ok(into_scene(stage))
}

// A stage where no node leads.
fn into_scene(stage: Stage) -> Scene
    ensures shape { result.shape ≡ stage.ground.shape }
    ensures timing { result.timing ≡ stage.ground.timing }
    ensures node { result.node ≡ stage.ground.node }
    ensures rows { result.rows ≡ stage.rows }
{
    let rows = stage.rows;
    let ground = stage.ground;
    Scene {
        shape: ground.shape,
        timing: ground.timing,
        rows,
        node: ground.node,
    }
}

/// Loads what a schedule is judged over by any setup that is taken, with its pace and with what crosses. The program passes all checks,
/// the setup is one of those that are taken, its placement by the setup is legal, the node that is named, if one is, is one of the
/// setup's, and the inputs are those of `main`. The files are read in this order: the program, the setup and the inputs.
pub fn load_stage<F: Files>(
    alloc: Global,
    files: &mut F,
    program: &str,
    inputs: &str,
    config: &str,
    node: Option<&str>,
    setups: Setups,
) -> Result<Stage, Or<CommandFault>>
    requires { MayFail (F.state files.old).faults }
    ensures { LoadsStage setups program.now inputs.now config.now (given_word node.entry) (F.state files.old) (F.state files.new) result }
{
    let checked = load_flat(alloc, files, program)?;
    let stage = load_setup(alloc, files, &checked, inputs, config, node, setups);
    drop(checked);
    stage
}

// Loads a program's setup, and then its inputs.
fn load_setup<F: Files>(
    alloc: Global,
    files: &mut F,
    checked: &Checked,
    inputs: &str,
    config: &str,
    node: Option<&str>,
    setups: Setups,
) -> Result<Stage, Or<CommandFault>>
    requires { MayFail (F.state files.old).faults }
    ensures { LoadsSetupStage setups inputs.now config.now (given_word node.entry) (examined_part checked.now) (F.state files.old) (F.state files.new) result }
{
    let setup = load_taken(alloc, files, config, setups)?;
    load_placed(alloc, files, checked, setup, inputs, node)
}

// The setup of a file, if it is one of those that are taken. No window is asked for in a plain one.
fn load_taken<F: Files>(
    alloc: Global,
    files: &mut F,
    name: &str,
    setups: Setups,
) -> Result<Config, Or<CommandFault>>
    requires { MayFail (F.state files.old).faults }
    ensures reads { ReadsFile name.now config_errand (taken_config_verdict setups) (F.state files.old) (F.state files.new) result }
    ensures windowed { IfOk result (λ setup. HasWindowBy setup.pace setup.timing) }
{
    let setup = load_paced(alloc, files, name, setups)?;
    accept_window(alloc, setup)
}

// The setup of a file, if its pace is one of those that are taken.
#[tactic(auto, unfolding(crate::specs::Stages::paced_config_verdict))]
fn load_paced<F: Files>(
    alloc: Global,
    files: &mut F,
    name: &str,
    setups: Setups,
) -> Result<Config, Or<CommandFault>>
    requires { MayFail (F.state files.old).faults }
    ensures { ReadsFile name.now config_errand (paced_config_verdict setups) (F.state files.old) (F.state files.new) result }
{
    match setups {
        Setups::Plain => load_plain_config(alloc, files, name),
        Setups::Windowed => load_config(alloc, files, name),
    }
}

// Loads a program's inputs, if the setup places it.
fn load_placed<F: Files>(
    alloc: Global,
    files: &mut F,
    checked: &Checked,
    setup: Config,
    inputs: &str,
    node: Option<&str>,
) -> Result<Stage, Or<CommandFault>>
    requires count { MayFail (F.state files.old).faults }
    requires windowed { HasWindowBy setup.pace setup.timing }
    ensures { LoadsPlacedStage inputs.now (given_word node.entry) (examined_part checked.now) setup (F.state files.old) (F.state files.new) result }
{
    let ground = find_ground(alloc, checked, setup, node)?;
    match load_inputs(alloc, files, inputs, &checked.program) {
        Ok(table) => Ok(Stage {
            ground,
            rows: table.rows(),
        }),
        Err(fault) => {
            drop(ground);
            Err(fault)
        }
    }
}
