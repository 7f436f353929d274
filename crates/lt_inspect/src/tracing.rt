// The events that are selected.
ghost use Rattle.std.specs.Prelude.{◌≡◌};
ghost use Rattle.lt_io.specs.Counts.{MayFail};
ghost use Rattle.lt_answer.specs.Alone.{given_word};
ghost use Rattle.lt_load.specs.Near.{IsReadNear};
ghost use Rattle.lt_inspect.specs.Inspected.{IsTraced, selection_of};
ghost use Rattle.lt_inspect.specs.OnFiles.{JudgesSchedule, TracesFiles};

use crate::inspecting::inspect;
use crate::inspection::Inspection;
use crate::loading::load_scene;
use crate::scene::Scene;
use crate::selecting::selects;
use lt_audit::{Selection, Tap};
use lt_base::{List, Or};
use lt_io::Files;
use lt_load::CommandFault;
use std::alloc::Global;

/// Judges a schedule over a program's setup, whose timing need not be accepted, with any number of messages in transit on a channel,
/// and writes a schedule of its events whose time is at least `from` and at most `to`; where a node is named, of its activations and
/// the deliveries to it alone. The files are read in this order: the program, the setup, the inputs and the schedule; that the name
/// is one of a node is seen after the placement.
pub fn trace<F: Files>(
    alloc: Global,
    files: &mut F,
    program: &str,
    inputs: &str,
    schedule: &str,
    config: &str,
    node: Option<&str>,
    from: u64,
    to: u64,
) -> Result<List<u8>, Or<CommandFault>>
    requires { MayFail (F.state files.old).faults }
    ensures { TracesFiles program.now inputs.now schedule.now config.now (given_word node.entry) from to (F.state files.old) (F.state files.new) result }
{
    let scene = load_scene(alloc, files, program, inputs, config, node)?;
    trace_scene(alloc, files, scene, schedule, from, to)
}

// Judges a schedule over what was loaded, and writes the events that are selected.
fn trace_scene<F: Files>(
    alloc: Global,
    files: &mut F,
    scene: Scene,
    schedule: &str,
    from: u64,
    to: u64,
) -> Result<List<u8>, Or<CommandFault>>
    requires { MayFail (F.state files.old).faults }
    ensures answered { JudgesSchedule (IsTraced from to scene) scene schedule.now (F.state files.old) (F.state files.new) result }
    ensures near { IsReadNear schedule.now (F.state files.old) (F.state files.new) result }
{
    let selection = selection_of(&scene, from, to);
    let tap = Tap::new(selection, scene.shape.copy()?, selects);
    let mut inspection = Inspection::over(alloc, scene, tap)?;
    match inspect(alloc, files, schedule, &mut inspection) {
        Ok(()) => Ok(inspection.into_text()),
        Err(e) => {
            drop(inspection);
            Err(e)
        }
    }
}

// The events at the node that is named, or at all nodes, within these bounds of time.
fn selection_of(scene: &Scene, from: u64, to: u64) -> Selection
    ensures { result ≡ selection_of scene.now from to }
{
    Selection {
        node: scene.node,
        from,
        to,
    }
}
