// The area between a line and 0.
ghost use Rattle.std.specs.Prelude.{◌≡◌, ◌≤◌, ◌<◌, ◌+◌, ◌-◌, ◌^◌, ◌++◌, OnOk};
ghost use Rattle.lt_plot.specs.Pieces.{pieces_from};
ghost use Rattle.lt_plot.specs.Lines.{value_block, instant_block, area_path, plot_area};

use lt_base::{Cell, List, Memory, Value};
use lt_scale::{Band, Chart, cell_at, floor, level, x_at, y_at};
use lt_svg::fill;

#[tactic(auto, unfolding(crate::specs::Lines::value_block))]
fn value_block(
    out: &mut List<u8>,
    chart: &Chart,
    band: &Band,
    instant: usize,
    value: Value,
) -> Result<(), Memory>
    requires { instant + 1 < 2 ^ 64 }
    ensures { OnOk result (out.new ≡ out.old ++ value_block chart.now band.now instant value) }
{
    let foot = y_at(band, floor(band.scale));
    let head = y_at(band, level(value));
    let end = x_at(chart, instant + 1);
    fill(
        out,
        b"M% %V%H%V%z",
        &[x_at(chart, instant), foot, head, end, foot],
    )
}

#[tactic(auto, unfolding(crate::specs::Lines::instant_block))]
fn block(
    out: &mut List<u8>,
    chart: &Chart,
    band: &Band,
    cells: &[Cell],
    instant: usize,
) -> Result<(), Memory>
    requires { instant + 1 < 2 ^ 64 }
    ensures { OnOk result (out.new ≡ out.old ++ instant_block chart.now band.now cells.now instant) }
{
    match cell_at(cells, instant) {
        Cell::Absent => Ok(()),
        Cell::Here(value) => value_block(out, chart, band, instant, value),
    }
}

fn blocks(
    out: &mut List<u8>,
    chart: &Chart,
    band: &Band,
    cells: &[Cell],
    start: usize,
    end: usize,
) -> Result<(), Memory>
    ensures { OnOk result (out.new ≡ out.old ++ pieces_from (instant_block chart.now band.now cells.now) start (end - start)) }
{
    for place in 0..end.saturating_sub(start) {
        block(out, chart, band, cells, start + place)?;
    }
    Ok(())
}

#[tactic(auto, unfolding(crate::specs::Lines::area_path))]
fn path(
    out: &mut List<u8>,
    chart: &Chart,
    band: &Band,
    cells: &[Cell],
    start: usize,
    end: usize,
) -> Result<(), Memory>
    ensures { OnOk result (out.new ≡ out.old ++ area_path chart.now band.now cells.now start end) }
{
    out.extend(b"<path d=\"")?;
    blocks(out, chart, band, cells, start, end)?;
    out.extend(b"\" class=\"ar\"/>\n")
}

/// Appends the area of the instants from one on, up to another, where 0 is on the scale.
#[tactic(auto, unfolding(crate::specs::Lines::plot_area))]
pub(crate) fn area(
    out: &mut List<u8>,
    chart: &Chart,
    band: &Band,
    cells: &[Cell],
    start: usize,
    end: usize,
) -> Result<(), Memory>
    ensures { OnOk result (out.new ≡ out.old ++ plot_area chart.now band.now cells.now start end) }
{
    if band.scale.zero {
        return path(out, chart, band, cells, start, end);
    }
    Ok(())
}
