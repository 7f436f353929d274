// What is drawn, as a plot.
ghost use Rattle.std.specs.Prelude.{◌≡◌, IfOk, length};
ghost use Rattle.lt_plot.specs.PlotText.{plot_text};
ghost use Rattle.lt_plotting.specs.Picture.{failing_instant, framed, instants_room, output_rows, picture, plot_width};

use crate::course::Course;
use crate::rows::output_rows;
use crate::view::{PlotView, PlotWindow};
use crate::window::plot_window;
use crate::words::{plot_facts, told_line};
use lt_base::{Cell, Func, List, Memory};
use lt_plot::{Plot, Row, window_room, write_plot};
use lt_watch::Watched;
use std::alloc::Global;

// The instant of a failure, where 32 bits have room for it.
#[tactic(auto, unfolding(crate::specs::Picture::failing_instant))]
fn failing_instant(told: Option<Watched>) -> Option<u32>
    ensures { result ≡ failing_instant told }
{
    match told {
        Some(Watched::Fails(instant)) => {
            if instant < 4_294_967_296 {
                Some(instant as u32)
            } else {
                None
            }
        }
        Some(Watched::Holds(_)) => None,
        None => None,
    }
}

// How wide a plot is to be.
fn plot_width(view: PlotView) -> u32
    ensures { result ≡ plot_width view }
{
    view.width.unwrap_or(760)
}

// How many instants have room beside the names of rows.
fn instants_room(width: u32, rows: &[Row]) -> u32
    ensures { result ≡ instants_room width rows.now }
{
    window_room(width, rows)
}

// The plot of a window.
fn framed(
    alloc: Global,
    window: PlotWindow,
    width: u32,
    total: u32,
    rows: List<Row>,
    title: List<u8>,
    course: &Course,
) -> Result<Plot, Memory>
    ensures { IfOk result (λ plot. plot ≡ framed window width total rows title course.now) }
{
    let facts = plot_facts(alloc, window, total, course)?;
    let verdict = told_line(alloc, course.told)?;
    Ok(Plot {
        width,
        first: window.first,
        count: window.count,
        title,
        facts,
        verdict,
        run: course.run,
        rows,
        failure: failing_instant(course.told),
    })
}

// The plot of these rows, whose streams have so many instants.
fn picture(
    alloc: Global,
    total: u32,
    rows: List<Row>,
    title: List<u8>,
    view: PlotView,
    course: &Course,
) -> Result<Plot, Memory>
    ensures { IfOk result (λ plot. plot ≡ picture total rows title view course.now) }
{
    let width = plot_width(view);
    let room = instants_room(width, &rows);
    let window = plot_window(view, room, total, failing_instant(course.told));
    framed(alloc, window, width, total, rows, title, course)
}

/// The text of the plot of a function's outputs, whose streams are given up and have so many instants.
pub(crate) fn paint(
    alloc: Global,
    main: &Func,
    total: u32,
    streams: List<List<Cell>>,
    title: List<u8>,
    view: PlotView,
    course: &Course,
) -> Result<List<u8>, Memory>
    requires { length streams ≡ length main.now.outs }
    ensures { IfOk result (λ text. text ≡ plot_text (picture total (output_rows main.now streams course.now.lengths) title view course.now)) }
{
    let rows = output_rows(alloc, main, streams, &course.lengths)?;
    let plot = picture(alloc, total, rows, title, view, course)?;
    let mut text = List::new(alloc);
    write_plot(&mut text, &plot)?;
    Ok(text)
}
