// `run`: the outputs of a program along a recorded schedule.
ghost use Rattle.std.specs.Prelude.{◌≡◌, []};
ghost use Rattle.lt_io.specs.Counts.{MayFail};
ghost use Rattle.lt_io.specs.FabricState.{OpensOnce};
ghost use Rattle.lt_run.specs.Run.{LeavesUnloaded};
ghost use Rattle.lt_answer.specs.Alone.{given_word};
ghost use Rattle.lt_cli.specs.Commands.Run.{AnswersRun};

use lt_base::{List, Or};
use lt_io::{Fabric, Files};
use lt_text_answers::{Refusal, outputs_text};
use std::alloc::Global;

/// The outputs of a run, with a setup as it says.
#[tactic(auto, using(crate::proofs::Texts::opens_shown))]
pub(crate) fn run<F: Files, W: Fabric>(
    alloc: Global,
    files: &mut F,
    fabric: &mut W,
    program: &str,
    inputs: &str,
    schedule: &str,
    config: Option<&str>,
) -> Result<List<u8>, Or<Refusal>>
    requires files { MayFail (F.state files.old).faults }
    requires fabric { MayFail (W.state fabric.old).faults }
    requires empty { (W.state fabric.old).kinds ≡ [] }
    ensures answers { AnswersRun F.state W.state program.now inputs.now schedule.now config.entry files.old files.new fabric.old fabric.new result }
    ensures opens { OpensOnce (W.state fabric.old) (W.state fabric.new) result }
    ensures untouched { LeavesUnloaded (F.state files.old) program.now inputs.now (given_word config.entry) (W.state fabric.old) (W.state fabric.new) }
{
    let found = lt_run::run(alloc, files, fabric, program, inputs, schedule, config);
    outputs_text(alloc, found)
}
