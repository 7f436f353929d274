// The plot of a program's outputs, from its files.
ghost use Rattle.std.specs.Prelude.{◌≡◌, ◌<◌, ◌^◌};
ghost use Rattle.lt_io.specs.Counts.{MayFail};
ghost use Rattle.lt_answer.specs.Alone.{given_word};
ghost use Rattle.lt_plotting.specs.Plotted.{PlotsOnFiles, wish_of};
ghost use Rattle.lt_plotting.specs.Stage.{DrawsLoaded, ObservesLoaded, PlotsLoaded, PlotsWish};
ghost use Rattle.lt_plotting.specs.Words.{given_words};

use crate::drawing::draw;
use crate::printing::{limit_loaded, observer_if_named, run_if_named};
use crate::view::PlotView;
use crate::words::plot_title;
use lt_base::{List, Or};
use lt_io::Files;
use lt_load::{Loaded, main_of};
use lt_past::Observer;
use lt_watch::{WatchFault, load_run};
use std::alloc::Global;

/// The outputs of a program over instants, as one SVG. `along` are a schedule and a setup: then the streams are solid as far as a run
/// along that schedule prints them, over channels that hand over what was sent. Without them no setup is read. An observer judges what
/// the run prints, or the streams. The files are read in this order: the program, the setup, the inputs, the observer and the schedule.
pub fn plot<F: Files>(
    alloc: Global,
    files: &mut F,
    program: &str,
    inputs: &str,
    along: Option<(&str, &str)>,
    observer: Option<&str>,
    view: PlotView,
) -> Result<List<u8>, Or<WatchFault>>
    requires files { MayFail (F.state files.old).faults }
    ensures { PlotsOnFiles program.now inputs.now (given_words along.entry) (given_word observer.entry) view (F.state files.old) (F.state files.new) result }
{
    let title = plot_title(alloc, program, inputs, along)?;
    match along {
        Some((schedule, config)) => plot_wish(
            alloc,
            files,
            program,
            inputs,
            Some(schedule),
            Some(config),
            observer,
            title,
            view,
        ),
        None => plot_wish(
            alloc, files, program, inputs, None, None, observer, title, view,
        ),
    }
}

// The plot with this title. A setup is given exactly where a schedule is.
fn plot_wish<F: Files>(
    alloc: Global,
    files: &mut F,
    program: &str,
    inputs: &str,
    schedule: Option<&str>,
    config: Option<&str>,
    observer: Option<&str>,
    title: List<u8>,
    view: PlotView,
) -> Result<List<u8>, Or<WatchFault>>
    requires { MayFail (F.state files.old).faults }
    ensures { PlotsWish program.now inputs.now (given_word config.entry) (wish_of (given_word schedule.entry) (given_word observer.entry) title view) (F.state files.old) (F.state files.new) result }
{
    let loaded = load_run(alloc, files, program, inputs, config)?;
    let text = plot_loaded(alloc, files, &loaded, schedule, observer, title, view);
    drop(loaded);
    text
}

// What was loaded: the limit on cells comes first.
fn plot_loaded<F: Files>(
    alloc: Global,
    files: &mut F,
    loaded: &Loaded,
    schedule: Option<&str>,
    observer: Option<&str>,
    title: List<u8>,
    view: PlotView,
) -> Result<List<u8>, Or<WatchFault>>
    requires { MayFail (F.state files.old).faults }
    ensures { PlotsLoaded loaded.now (wish_of (given_word schedule.entry) (given_word observer.entry) title view) (F.state files.old) (F.state files.new) result }
{
    limit_loaded(alloc, loaded)?;
    plot_limited(alloc, files, loaded, schedule, observer, title, view)
}

// Behind the limit: the observer comes first.
fn plot_limited<F: Files>(
    alloc: Global,
    files: &mut F,
    loaded: &Loaded,
    schedule: Option<&str>,
    observer: Option<&str>,
    title: List<u8>,
    view: PlotView,
) -> Result<List<u8>, Or<WatchFault>>
    requires { MayFail (F.state files.old).faults }
    ensures { ObservesLoaded loaded.now (wish_of (given_word schedule.entry) (given_word observer.entry) title view) (F.state files.old) (F.state files.new) result }
{
    let checked = &loaded.checked;
    let observer = observer_if_named(alloc, files, observer, main_of(&checked.program))?;
    let text = plot_observed(alloc, files, loaded, schedule, &observer, title, view);
    drop(observer);
    text
}

// Behind the observer: the run, and then the text.
fn plot_observed<F: Files>(
    alloc: Global,
    files: &mut F,
    loaded: &Loaded,
    schedule: Option<&str>,
    observer: &Option<Observer>,
    title: List<u8>,
    view: PlotView,
) -> Result<List<u8>, Or<WatchFault>>
    requires { MayFail (F.state files.old).faults }
    ensures { DrawsLoaded loaded.now (given_word schedule.entry) title view observer.now (F.state files.old) (F.state files.new) result }
{
    let printed = run_if_named(alloc, files, loaded, schedule)?;
    let drawn = draw(alloc, loaded, printed, observer, title, view);
    Ok(drawn?)
}
