// A row: its name, its scale, its line and its marks.
ghost use Rattle.std.specs.Prelude.{◌≡◌, ◌≤◌, ◌++◌, OnOk};
ghost use Rattle.lt_plot.specs.Rows.{plot_ground, plot_short_name, plot_name, plot_rule, plot_label, plot_zero, plot_scale, solid_end, plot_stream, plot_lines, plot_end, plot_row_at, plot_row};

use crate::area::area;
use crate::frame::row_scale;
use crate::line::line;
use crate::marks::marks;
use crate::plot::Row;
use lt_base::{List, Memory};
use lt_scale::{
    Band, Chart, band_at, base, end_of, floor, is_end_shown, right, start_of, write_level, x_at,
    y_at,
};
use lt_svg::{enclosed, escape, fill};
use std::cmp::{max, min};

#[tactic(auto, unfolding(crate::specs::Rows::plot_ground))]
fn ground(out: &mut List<u8>, chart: &Chart, band: &Band) -> Result<(), Memory>
    ensures { OnOk result (out.new ≡ out.old ++ plot_ground chart.now band.now) }
{
    fill(
        out,
        b"<rect x=\"%\" y=\"%\" width=\"%\" height=\"%\" class=\"zb\"/>\n",
        &[
            u64::from(chart.left),
            u64::from(band.top),
            u64::from(chart.breadth),
            u64::from(band.height) + 17,
        ],
    )
}

// A name, of which the middle is left out where it is long.
#[tactic(auto, unfolding(crate::specs::Rows::plot_short_name))]
fn short_name(out: &mut List<u8>, name: &[u8]) -> Result<(), Memory>
    ensures { OnOk result (out.new ≡ out.old ++ plot_short_name name.now) }
{
    if name.len() <= 16 {
        return escape(out, name);
    }
    escape(out, &name[..10])?;
    out.extend(b"..")?;
    escape(out, &name[name.len() - 4..])
}

#[tactic(auto, unfolding(crate::specs::Rows::plot_name))]
fn title(out: &mut List<u8>, band: &Band, name: &[u8]) -> Result<(), Memory>
    ensures { OnOk result (out.new ≡ out.old ++ plot_name band.now name.now) }
{
    let y = base(band) - u64::from(band.height / 2) + 4;
    enclosed(out, b"<g><title>", name, b"</title>")?;
    fill(out, b"<text x=\"12\" y=\"%\" class=\"tx\">", &[y])?;
    short_name(out, name)?;
    out.extend(b"</text></g>\n")
}

#[tactic(auto, unfolding(crate::specs::Rows::plot_rule))]
fn rule(out: &mut List<u8>, chart: &Chart, band: &Band, level: u64) -> Result<(), Memory>
    ensures { OnOk result (out.new ≡ out.old ++ plot_rule chart.now band.now level) }
{
    fill(
        out,
        b"<path d=\"M% %H%\" class=\"gr\"/>\n",
        &[u64::from(chart.left), y_at(band, level), right(chart)],
    )
}

#[tactic(auto, unfolding(crate::specs::Rows::plot_label))]
fn label(out: &mut List<u8>, chart: &Chart, band: &Band, level: u64) -> Result<(), Memory>
    ensures { OnOk result (out.new ≡ out.old ++ plot_label chart.now band.now level) }
{
    let x = u64::from(chart.left).saturating_sub(6);
    let y = y_at(band, level) + 4;
    fill(out, b"<text x=\"%\" y=\"%\" class=\"ts e s\">", &[x, y])?;
    write_level(out, band.scale.truth, level)?;
    out.extend(b"</text>\n")?;
    rule(out, chart, band, level)
}

// The line of 0, where 0 is neither at the foot nor at the head.
#[tactic(auto, unfolding(crate::specs::Rows::plot_zero))]
fn zero_rule(out: &mut List<u8>, chart: &Chart, band: &Band) -> Result<(), Memory>
    ensures { OnOk result (out.new ≡ out.old ++ plot_zero chart.now band.now) }
{
    let zero = floor(band.scale);
    if band.scale.low < zero && zero < band.scale.high {
        return rule(out, chart, band, zero);
    }
    Ok(())
}

#[tactic(auto, unfolding(crate::specs::Rows::plot_scale))]
fn scale(out: &mut List<u8>, chart: &Chart, band: &Band) -> Result<(), Memory>
    ensures { OnOk result (out.new ≡ out.old ++ plot_scale chart.now band.now) }
{
    label(out, chart, band, band.scale.low)?;
    label(out, chart, band, band.scale.high)?;
    zero_rule(out, chart, band)
}

// Where the line is no longer solid: the end of what was printed, within what is shown.
#[tactic(auto, unfolding(crate::specs::Rows::solid_end))]
fn solid_end(chart: &Chart, row: &Row) -> usize
    ensures { result ≡ solid_end chart.now row.now }
{
    let cells = row.cells.as_slice();
    let printed = max(row.printed, start_of(chart.first, cells));
    min(printed, end_of(chart.first, chart.count, cells))
}

// The stream: solid and filled up to an instant, and pale behind it.
#[tactic(auto, unfolding(crate::specs::Rows::plot_marks))]
fn stream(
    out: &mut List<u8>,
    chart: &Chart,
    band: &Band,
    row: &Row,
    start: usize,
    solid: usize,
    end: usize,
) -> Result<(), Memory>
    ensures { OnOk result (out.new ≡ out.old ++ plot_stream chart.now band.now row.now start solid end) }
{
    area(out, chart, band, &row.cells, start, solid)?;
    line(out, chart, band, &row.cells, start, solid, b"ln")?;
    line(out, chart, band, &row.cells, solid, end, b"lp")?;
    marks(out, chart, band, &row.cells, start, solid, end)
}

#[tactic(auto, unfolding(crate::specs::Rows::plot_lines))]
fn lines(out: &mut List<u8>, chart: &Chart, band: &Band, row: &Row) -> Result<(), Memory>
    ensures { OnOk result (out.new ≡ out.old ++ plot_lines chart.now band.now row.now) }
{
    let start = start_of(chart.first, &row.cells);
    let end = end_of(chart.first, chart.count, &row.cells);
    stream(out, chart, band, row, start, solid_end(chart, row), end)
}

// The mark at which the run ends.
#[tactic(auto, unfolding(crate::specs::Rows::plot_end))]
fn end_mark(
    out: &mut List<u8>,
    chart: &Chart,
    band: &Band,
    run: bool,
    printed: usize,
) -> Result<(), Memory>
    ensures { OnOk result (out.new ≡ out.old ++ plot_end chart.now band.now run printed) }
{
    if !run || !is_end_shown(chart, printed as u64) {
        return Ok(());
    }
    let x = x_at(chart, printed);
    let top = u64::from(band.top);
    let height = u64::from(band.height);
    fill(
        out,
        b"<path d=\"M% %v%\" class=\"fr\"/><path d=\"M% %l-5 -4v8z\" class=\"ex\"/>\n",
        &[x, top + 1, height + 15, x, top + 9 + height / 2],
    )
}

#[tactic(auto, unfolding(crate::specs::Rows::plot_row_at))]
fn row_at(
    out: &mut List<u8>,
    chart: &Chart,
    band: &Band,
    run: bool,
    row: &Row,
) -> Result<(), Memory>
    ensures { OnOk result (out.new ≡ out.old ++ plot_row_at chart.now band.now run row.now) }
{
    ground(out, chart, band)?;
    title(out, band, row.name.as_str().as_bytes())?;
    scale(out, chart, band)?;
    lines(out, chart, band, row)?;
    end_mark(out, chart, band, run, row.printed)
}

/// Appends a row at its top.
#[tactic(auto, unfolding(crate::specs::Rows::plot_row))]
pub(crate) fn row(
    out: &mut List<u8>,
    chart: &Chart,
    run: bool,
    top: u32,
    row: &Row,
) -> Result<(), Memory>
    ensures { OnOk result (out.new ≡ out.old ++ plot_row chart.now run top row.now) }
{
    let band = band_at(top, row_scale(chart.first, chart.count, row));
    row_at(out, chart, &band, run, row)
}
