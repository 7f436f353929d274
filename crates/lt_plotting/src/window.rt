// Which instants a plot shows.
ghost use Rattle.std.specs.Prelude.{◌≡◌};
ghost use Rattle.lt_plotting.specs.Window.{plot_window, usual_start, window_from, wished_end};

use crate::view::{PlotView, PlotWindow};
use std::cmp::{max, min};

// Where a window of so many instants begins that is not told to.
fn usual_start(room: u32, failure: Option<u32>) -> u32
    ensures { result ≡ usual_start room failure }
{
    match failure {
        Some(instant) => {
            if instant < room {
                0
            } else {
                instant - room / 2
            }
        }
        None => 0,
    }
}

// The instant behind the last one that is wished.
fn wished_end(room: u32, first: u32, last: Option<u32>) -> u64
    ensures { result ≡ wished_end room first last }
{
    match last {
        Some(instant) => u64::from(instant) + 1,
        None => u64::from(first) + u64::from(room),
    }
}

// The window from an instant up to another, as far as there are so many instants.
fn window_from(first: u32, end: u64, total: u32) -> PlotWindow
    ensures { result ≡ window_from first end total }
{
    let shown = min(end, u64::from(total)).saturating_sub(u64::from(first));
    PlotWindow {
        first,
        count: max(1, shown) as u32,
    }
}

/// The window of a view, where so many instants have room, the streams have so many, and an observer fails at one.
#[tactic(auto, unfolding(crate::specs::Window::plot_window))]
pub(crate) fn plot_window(view: PlotView, room: u32, total: u32, failure: Option<u32>) -> PlotWindow
    ensures { result ≡ plot_window view room total failure }
{
    let first = view.from.unwrap_or(usual_start(room, failure));
    window_from(first, wished_end(room, first, view.to), total)
}
