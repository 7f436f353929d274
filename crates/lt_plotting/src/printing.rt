// The steps of a plot that read files: its observer, and its run.
ghost use Rattle.std.specs.Prelude.{◌≡◌, ◌<◌, ◌^◌, [], length};
ghost use Rattle.lt_io.specs.Counts.{MayFail};
ghost use Rattle.lt_answer.specs.Alone.{given_word};
ghost use Rattle.lt_answer.specs.Answered.{Settles};
ghost use Rattle.lt_evaluate.specs.Main.{cells_verdict};
ghost use Rattle.lt_watch.specs.Watch.{InCommand};
ghost use Rattle.lt_plotting.specs.Stage.{ObservesIfNamed, RunsFaithfully, RunsIfNamed};

use lt_base::{Func, List, Or};
use lt_evaluate::{Outputs, limit_cells};
use lt_io::{Files, MemFabric};
use lt_load::Loaded;
use lt_past::Observer;
use lt_watch::{WatchFault, load_observer, run_outputs};
use std::alloc::Global;

/// Refuses a program that has too many cells on its inputs.
pub(crate) fn limit_loaded(alloc: Global, loaded: &Loaded) -> Result<(), Or<WatchFault>>
    ensures { Settles (InCommand (cells_verdict loaded.now.checked.program loaded.now.inputs.rows)) result }
{
    let checked = &loaded.checked;
    checked.invariant_holds();
    match limit_cells(alloc, &checked.program, &loaded.inputs) {
        Ok(few) => Ok(few),
        Err(e) => Err(e.map(WatchFault::Command)),
    }
}

/// Reads the observer of a file over the outputs of `main`, if there is one.
pub(crate) fn observer_if_named<F: Files>(
    alloc: Global,
    files: &mut F,
    observer: Option<&str>,
    main: &Func,
) -> Result<Option<Observer>, Or<WatchFault>>
    requires count { MayFail (F.state files.old).faults }
    requires few { length main.now.outs < 2 ^ 32 }
    ensures { ObservesIfNamed main.now (given_word observer.entry) (F.state files.old) (F.state files.new) result }
{
    match observer {
        Some(name) => match load_observer(alloc, files, name, main) {
            Ok(observer) => Ok(Some(observer)),
            Err(fault) => Err(fault),
        },
        None => Ok(None),
    }
}

// Runs what was loaded along the schedule of a file, over channels in memory that hand over what was sent.
fn run_faithfully<F: Files>(
    alloc: Global,
    files: &mut F,
    loaded: &Loaded,
    schedule: &str,
) -> Result<Outputs, Or<WatchFault>>
    requires { MayFail (F.state files.old).faults }
    ensures { RunsFaithfully loaded.now schedule.now (F.state files.old) (F.state files.new) result }
{
    let mut fabric = MemFabric::new(alloc, List::new(alloc));
    let outputs = run_outputs(alloc, files, &mut fabric, loaded, schedule);
    drop(fabric);
    outputs
}

/// Runs what was loaded along the schedule of a file, if there is one.
pub(crate) fn run_if_named<F: Files>(
    alloc: Global,
    files: &mut F,
    loaded: &Loaded,
    schedule: Option<&str>,
) -> Result<Option<Outputs>, Or<WatchFault>>
    requires { MayFail (F.state files.old).faults }
    ensures { RunsIfNamed loaded.now (given_word schedule.entry) (F.state files.old) (F.state files.new) result }
{
    match schedule {
        Some(name) => match run_faithfully(alloc, files, loaded, name) {
            Ok(outputs) => Ok(Some(outputs)),
            Err(fault) => Err(fault),
        },
        None => Ok(None),
    }
}
