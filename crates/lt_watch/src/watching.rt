// A run that an observer watches.
ghost use Rattle.std.specs.Prelude.{◌≡◌, []};
ghost use Rattle.lt_io.specs.Counts.{MayFail};
ghost use Rattle.lt_io.specs.FabricState.{OpensOnce};
ghost use Rattle.lt_load_fit.specs.Main.{main_in};
ghost use Rattle.lt_watch.specs.OnFiles.{FollowsLoaded, LeavesUnlessWatched, RunsWatched, Watches, WatchesLoaded};
ghost use Rattle.lt_watch.specs.Watch.{LeavesUnobserved};

use crate::judging::judge;
use crate::observing::{load_observer, load_run};
use crate::{WatchFault, Watched};
use lt_base::Or;
use lt_evaluate::Outputs;
use lt_io::{Fabric, Files};
use lt_load::{Loaded, main_of};
use lt_past::Observer;
use lt_run::run_loaded;
use std::alloc::Global;

/// Runs a program as `lt_run::run` does, and has an observer judge the cells of the outputs. The files are read in this order: the
/// program, the setup, the inputs, the observer and the schedule.
pub fn watch<F: Files, W: Fabric>(
    alloc: Global,
    files: &mut F,
    fabric: &mut W,
    program: &str,
    inputs: &str,
    schedule: &str,
    observer: &str,
    config: Option<&str>,
) -> Result<Watched, Or<WatchFault>>
    requires count { MayFail (F.state files.old).faults }
    requires link_count { MayFail (W.state fabric.old).faults }
    requires empty { (W.state fabric.old).kinds ≡ [] }
    ensures answered { Watches F.state W.state program.now inputs.now schedule.now observer.now config.entry files.old files.new fabric.old fabric.new result }
    ensures opens { OpensOnce (W.state fabric.old) (W.state fabric.new) result }
    ensures untouched { LeavesUnlessWatched F.state W.state program.now inputs.now observer.now config.entry files.old fabric.old fabric.new }
{
    let loaded = load_run(alloc, files, program, inputs, config)?;
    let watched = watch_loaded(alloc, files, fabric, &loaded, schedule, observer);
    drop(loaded);
    watched
}

// What was loaded: its observer, and then the run.
fn watch_loaded<F: Files, W: Fabric>(
    alloc: Global,
    files: &mut F,
    fabric: &mut W,
    loaded: &Loaded,
    schedule: &str,
    observer: &str,
) -> Result<Watched, Or<WatchFault>>
    requires count { MayFail (F.state files.old).faults }
    requires link_count { MayFail (W.state fabric.old).faults }
    requires empty { (W.state fabric.old).kinds ≡ [] }
    ensures answered { WatchesLoaded F.state W.state loaded.now schedule.now observer.now files.old files.new fabric.old fabric.new result }
    ensures opens { OpensOnce (W.state fabric.old) (W.state fabric.new) result }
    ensures untouched { LeavesUnobserved (F.state files.old) (main_in loaded.now.checked.program) observer.now (W.state fabric.old) (W.state fabric.new) }
{
    let checked = &loaded.checked;
    let observer = load_observer(alloc, files, observer, main_of(&checked.program))?;
    let watched = follow(alloc, files, fabric, loaded, schedule, &observer);
    drop(observer);
    watched
}

// The run, and then what its observer makes of it.
fn follow<F: Files, W: Fabric>(
    alloc: Global,
    files: &mut F,
    fabric: &mut W,
    loaded: &Loaded,
    schedule: &str,
    observer: &Observer,
) -> Result<Watched, Or<WatchFault>>
    requires count { MayFail (F.state files.old).faults }
    requires link_count { MayFail (W.state fabric.old).faults }
    requires empty { (W.state fabric.old).kinds ≡ [] }
    ensures answered { FollowsLoaded F.state W.state loaded.now schedule.now observer.now files.old files.new fabric.old fabric.new result }
    ensures opens { OpensOnce (W.state fabric.old) (W.state fabric.new) result }
{
    observer.invariant_holds();
    let outputs = run_outputs(alloc, files, fabric, loaded, schedule)?;
    let judged = judge(alloc, observer, &outputs.cells);
    drop(outputs);
    Ok(judged?)
}

/// The outputs of a run of what was loaded, as `lt_run::run_loaded` gives them.
pub fn run_outputs<F: Files, W: Fabric>(
    alloc: Global,
    files: &mut F,
    fabric: &mut W,
    loaded: &Loaded,
    schedule: &str,
) -> Result<Outputs, Or<WatchFault>>
    requires count { MayFail (F.state files.old).faults }
    requires link_count { MayFail (W.state fabric.old).faults }
    requires empty { (W.state fabric.old).kinds ≡ [] }
    ensures answered { RunsWatched F.state W.state loaded.now schedule.now files.old files.new fabric.old fabric.new result }
    ensures opens { OpensOnce (W.state fabric.old) (W.state fabric.new) result }
{
    match run_loaded(alloc, files, fabric, loaded, schedule) {
        Ok(outputs) => Ok(outputs),
        Err(e) => Err(e.map(WatchFault::Command)),
    }
}
