// `watch`: what an observer makes of a run.
ghost use Rattle.std.specs.Prelude.{◌≡◌, []};
ghost use Rattle.lt_io.specs.Counts.{MayFail};
ghost use Rattle.lt_io.specs.FabricState.{OpensOnce};
ghost use Rattle.lt_watch.specs.OnFiles.{LeavesUnlessWatched};
ghost use Rattle.lt_cli.specs.Commands.Watch.{AnswersWatch};

use lt_base::{List, Or};
use lt_io::{Fabric, Files};
use lt_text_answers::{Refusal, watch_text};
use std::alloc::Global;

/// What an observer makes of a run.
pub(crate) fn watch<F: Files, W: Fabric>(
    alloc: Global,
    files: &mut F,
    fabric: &mut W,
    program: &str,
    inputs: &str,
    schedule: &str,
    observer: &str,
    config: Option<&str>,
) -> Result<List<u8>, Or<Refusal>>
    requires files { MayFail (F.state files.old).faults }
    requires fabric { MayFail (W.state fabric.old).faults }
    requires empty { (W.state fabric.old).kinds ≡ [] }
    ensures answers { AnswersWatch F.state W.state program.now inputs.now schedule.now observer.now config.entry
        files.old files.new fabric.old fabric.new result }
    ensures opens { OpensOnce (W.state fabric.old) (W.state fabric.new) result }
    ensures untouched { LeavesUnlessWatched F.state W.state program.now inputs.now observer.now config.entry files.old fabric.old fabric.new }
{
    let watched = lt_watch::watch(
        alloc, files, fabric, program, inputs, schedule, observer, config,
    );
    watch_text(alloc, watched)
}
