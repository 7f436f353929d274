// The frame of a plot, and the scales of its rows.
ghost use Rattle.std.specs.Prelude.{◌≡◌, ◌≤◌, ◌-◌, ◌*◌, ◌/◌};
ghost use Rattle.lt_scale.specs.Chart.{picture_width};
ghost use Rattle.lt_plot.specs.Places.{window_scale, name_room, label_room, plot_chart};

use crate::plot::{Plot, Row};
use lt_scale::{Chart, Scale, end_of, picture_width, scale_of, scale_width, start_of};
use std::cmp::{max, min};

/// The scale of a row over what is shown.
#[tactic(auto, unfolding(crate::specs::Places::window_scale))]
pub(crate) fn row_scale(first: u32, count: u32, row: &Row) -> Scale
    ensures { result ≡ window_scale first count row.now }
{
    let cells = row.cells.as_slice();
    scale_of(
        row.truth,
        &cells[start_of(first, cells)..end_of(first, count, cells)],
    )
}

// How many characters of names have room on the left.
fn name_room(rows: &[Row]) -> u32
    ensures value { result ≡ name_room rows.now }
    ensures within { result ≤ 16 }
{
    let longest = rows
        .iter()
        .fold(7, |most, row| max(most, row.name.as_str().len()));
    min(16, longest) as u32
}

// How many characters of values have room on the left.
fn label_room(first: u32, count: u32, rows: &[Row]) -> u32
    ensures value { result ≡ label_room first count rows.now }
    ensures within { result ≤ 21 }
{
    let widest = rows.iter().fold(
        5,
        |most, row| max(most, scale_width(row_scale(first, count, row))),
    );
    min(21, widest) as u32
}

/// How many instants have room in a picture of so many pixels, with these names.
pub fn window_room(width: u32, rows: &[Row]) -> u32
    ensures { result ≡ (picture_width width - 30 - 7 * name_room rows.now) / 5 }
{
    (picture_width(width) - 30 - 7 * name_room(rows)) / 5
}

/// The frame of a plot.
#[tactic(auto, unfolding(crate::specs::Places::plot_chart))]
pub(crate) fn chart_of(plot: &Plot) -> Chart
    ensures { result ≡ plot_chart plot.now }
{
    let width = picture_width(plot.width);
    let left = 20 + 7 * (name_room(&plot.rows) + label_room(plot.first, plot.count, &plot.rows));
    Chart {
        width,
        left,
        breadth: width - 18 - left,
        first: plot.first,
        count: plot.count,
    }
}
