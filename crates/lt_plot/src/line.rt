// The line of a row: a step for each cell that is there.
ghost use Rattle.std.specs.Prelude.{◌≡◌, ◌≤◌, ◌<◌, ◌+◌, ◌-◌, ◌^◌, ◌++◌, OnOk};
ghost use Rattle.lt_plot.specs.Pieces.{pieces_from};
ghost use Rattle.lt_plot.specs.Lines.{goes_on, value_step, instant_step, plot_line};

use lt_base::{Cell, List, Memory, Value};
use lt_scale::{Band, Chart, cell_at, is_there, level, x_at, y_at};
use lt_svg::fill;

// Whether the line goes on from the instant before, which is in its part too.
fn is_joined(cells: &[Cell], start: usize, instant: usize) -> bool
    ensures { result ≡ goes_on cells.now start instant }
{
    start < instant && is_there(cell_at(cells, instant - 1))
}

// From the beginning of an instant to its end, at the height of its value.
#[tactic(auto, unfolding(crate::specs::Lines::value_step))]
fn value_step(
    out: &mut List<u8>,
    chart: &Chart,
    band: &Band,
    joined: bool,
    instant: usize,
    value: Value,
) -> Result<(), Memory>
    requires { instant + 1 < 2 ^ 64 }
    ensures { OnOk result (out.new ≡ out.old ++ value_step chart.now band.now joined instant value) }
{
    let y = y_at(band, level(value));
    let end = x_at(chart, instant + 1);
    if joined {
        return fill(out, b"V%H%", &[y, end]);
    }
    fill(out, b"M% %H%", &[x_at(chart, instant), y, end])
}

#[tactic(auto, unfolding(crate::specs::Lines::instant_step))]
fn step(
    out: &mut List<u8>,
    chart: &Chart,
    band: &Band,
    cells: &[Cell],
    start: usize,
    instant: usize,
) -> Result<(), Memory>
    requires { instant + 1 < 2 ^ 64 }
    ensures { OnOk result (out.new ≡ out.old ++ instant_step chart.now band.now cells.now start instant) }
{
    match cell_at(cells, instant) {
        Cell::Absent => Ok(()),
        Cell::Here(value) => {
            value_step(
                out,
                chart,
                band,
                is_joined(cells, start, instant),
                instant,
                value,
            )
        }
    }
}

fn steps(
    out: &mut List<u8>,
    chart: &Chart,
    band: &Band,
    cells: &[Cell],
    start: usize,
    end: usize,
) -> Result<(), Memory>
    ensures { OnOk result (out.new ≡ out.old ++ pieces_from (instant_step chart.now band.now cells.now start) start (end - start)) }
{
    for place in 0..end.saturating_sub(start) {
        step(out, chart, band, cells, start, start + place)?;
    }
    Ok(())
}

/// Appends the line of the instants from one on, up to another.
#[tactic(auto, unfolding(crate::specs::Lines::plot_line))]
pub(crate) fn line(
    out: &mut List<u8>,
    chart: &Chart,
    band: &Band,
    cells: &[Cell],
    start: usize,
    end: usize,
    class: &[u8],
) -> Result<(), Memory>
    ensures { OnOk result (out.new ≡ out.old ++ plot_line chart.now band.now cells.now start end class.now) }
{
    out.extend(b"<path d=\"")?;
    steps(out, chart, band, cells, start, end)?;
    out.extend(b"\" class=\"")?;
    out.extend(class)?;
    out.extend(b"\"/>\n")
}
