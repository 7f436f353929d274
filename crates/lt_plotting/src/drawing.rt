// The text of a plot, from what was printed.
ghost use Rattle.std.specs.Prelude.{◌≡◌, IfOk, false, length, map, true};
ghost use Rattle.lt_evaluate.specs.Main.{output_streams};
ghost use Rattle.lt_plot.specs.PlotText.{plot_text};
ghost use Rattle.lt_plotting.specs.Picture.{program_picture};
ghost use Rattle.lt_plotting.specs.Plotted.{IsCourse, TellsOf};
ghost use Rattle.lt_plotting.specs.Stage.{DrawsText, DrawsPrinted};

use crate::course::Course;
use crate::picture::paint;
use crate::view::PlotView;
use lt_base::{Cell, List, Memory};
use lt_evaluate::{Outputs, outputs_of};
use lt_load::{Loaded, main_of};
use lt_past::Observer;
use lt_watch::{Watched, judge};
use std::alloc::Global;

// What an observer makes of cells, where there is one.
fn tell(
    alloc: Global,
    observer: &Option<Observer>,
    cells: &[List<Cell>],
) -> Result<Option<Watched>, Memory>
    ensures { IfOk result (TellsOf observer.now cells.now) }
{
    match observer {
        Some(observer) => Ok(Some(judge(alloc, observer, cells)?)),
        None => Ok(None),
    }
}

// The lengths of columns.
fn lengths_of(alloc: Global, columns: &[List<Cell>]) -> Result<List<usize>, Memory>
    ensures { IfOk result (λ lengths. lengths ≡ map (λ column. length column) columns.now) }
{
    let mut lengths = List::new(alloc);
    for column in columns {
        lengths.push(column.len())?;
    }
    Ok(lengths)
}

// What was printed, and what an observer makes of it.
fn course_of(
    alloc: Global,
    run: bool,
    observer: &Option<Observer>,
    cells: &[List<Cell>],
) -> Result<Course, Memory>
    ensures { IfOk result (IsCourse run observer.now cells.now) }
{
    let told = tell(alloc, observer, cells)?;
    let lengths = lengths_of(alloc, cells)?;
    Ok(Course { run, lengths, told })
}

// The streams of the outputs of what was loaded.
fn streams_of(alloc: Global, loaded: &Loaded) -> Result<List<List<Cell>>, Memory>
    ensures { IfOk result (λ streams. streams ≡ output_streams loaded.now.checked.program loaded.now.inputs.rows) }
{
    loaded.invariant_holds();
    let outputs = outputs_of(alloc, &loaded.checked, &loaded.inputs)?;
    Ok(outputs.cells)
}

// The text of a plot with this course.
fn draw_course(
    alloc: Global,
    loaded: &Loaded,
    streams: List<List<Cell>>,
    title: List<u8>,
    view: PlotView,
    course: &Course,
) -> Result<List<u8>, Memory>
    requires { streams ≡ output_streams loaded.now.checked.program loaded.now.inputs.rows }
    ensures { IfOk result (λ text. text ≡ plot_text (program_picture loaded.now.checked.program loaded.now.inputs.rows title view course.now)) }
{
    let main = main_of(&loaded.checked.program);
    let total = loaded.inputs.rows();
    paint(alloc, main, total, streams, title, view, course)
}

// The text of the plot of a run.
fn draw_run(
    alloc: Global,
    loaded: &Loaded,
    outputs: Outputs,
    observer: &Option<Observer>,
    title: List<u8>,
    view: PlotView,
) -> Result<List<u8>, Memory>
    ensures { IfOk result (DrawsText loaded.now title view observer.now true outputs.cells) }
{
    let course = course_of(alloc, true, observer, &outputs.cells)?;
    drop(outputs);
    let streams = streams_of(alloc, loaded)?;
    draw_course(alloc, loaded, streams, title, view, &course)
}

// The text of the plot of the streams.
fn draw_streams(
    alloc: Global,
    loaded: &Loaded,
    observer: &Option<Observer>,
    title: List<u8>,
    view: PlotView,
) -> Result<List<u8>, Memory>
    ensures { IfOk result (DrawsText loaded.now title view observer.now false (output_streams loaded.now.checked.program loaded.now.inputs.rows)) }
{
    let streams = streams_of(alloc, loaded)?;
    let course = course_of(alloc, false, observer, &streams)?;
    draw_course(alloc, loaded, streams, title, view, &course)
}

/// The text of the plot of what was loaded: of a run with these outputs, or of the streams.
pub(crate) fn draw(
    alloc: Global,
    loaded: &Loaded,
    printed: Option<Outputs>,
    observer: &Option<Observer>,
    title: List<u8>,
    view: PlotView,
) -> Result<List<u8>, Memory>
    ensures { IfOk result (DrawsPrinted loaded.now title view observer.now printed) }
{
    match printed {
        Some(outputs) => draw_run(alloc, loaded, outputs, observer, title, view),
        None => draw_streams(alloc, loaded, observer, title, view),
    }
}
