// Dots where nothing is, and values where they change.
ghost use Rattle.std.specs.Prelude.{◌≡◌, ◌≤◌, ◌<◌, ◌+◌, ◌-◌, ◌^◌, ◌++◌, OnOk, codes, if◌then◌else◌};
ghost use Rattle.lt_plot.specs.Pieces.{pieces_from};
ghost use Rattle.lt_plot.specs.Marks.{plot_dot, beside_line, plot_number, is_news, instant_mark};

use lt_base::{Cell, List, Memory, Value, append_number};
use lt_scale::{
    Band, Chart, base, cell_at, dots_fit, has_level, level, values_fit, x_middle, y_at,
};
use lt_svg::fill;

#[tactic(auto, unfolding(crate::specs::Marks::plot_dot))]
fn dot(out: &mut List<u8>, chart: &Chart, band: &Band, instant: usize) -> Result<(), Memory>
    requires { instant + 1 < 2 ^ 64 }
    ensures { OnOk result (out.new ≡ out.old ++ plot_dot chart.now band.now instant) }
{
    if !dots_fit(chart) {
        return Ok(());
    }
    let y = base(band) - u64::from(band.height / 2);
    fill(
        out,
        b"<circle cx=\"%\" cy=\"%\" r=\"1\" class=\"dot\"/>\n",
        &[x_middle(chart, instant), y],
    )
}

// Below the line where it is near the head of the scale, and else above it.
#[tactic(auto, unfolding(crate::specs::Marks::beside_line))]
fn beside(band: &Band, y: u64) -> u64
    requires { y < 2 ^ 34 }
    ensures { result ≡ beside_line band.now y }
{
    if y < u64::from(band.top) + 17 {
        y + 12
    } else {
        y.saturating_sub(4)
    }
}

fn number_class(printed: bool) -> &'static [u8]
    ensures { result.now ≡ (if printed then codes "tx m s\">" else codes "pv m s\">") }
{
    if printed { b"tx m s\">" } else { b"pv m s\">" }
}

#[tactic(auto, unfolding(crate::specs::Marks::plot_number))]
fn number(
    out: &mut List<u8>,
    chart: &Chart,
    band: &Band,
    printed: bool,
    instant: usize,
    number: i64,
) -> Result<(), Memory>
    requires { instant + 1 < 2 ^ 64 }
    ensures { OnOk result (out.new ≡ out.old ++ plot_number chart.now band.now printed instant number) }
{
    let y = beside(band, y_at(band, level(Value::Int(number))));
    fill(
        out,
        b"<text x=\"%\" y=\"%\" class=\"",
        &[x_middle(chart, instant), y],
    )?;
    out.extend(number_class(printed))?;
    append_number(out, number)?;
    out.extend(b"</text>\n")
}

// Whether the instant before does not have this number, or the instant is the first that is shown.
#[tactic(auto, unfolding(crate::specs::Marks::is_news))]
fn is_news(cells: &[Cell], start: usize, instant: usize, number: i64) -> bool
    ensures { result ≡ is_news cells.now start instant number }
{
    instant <= start || !has_level(cell_at(cells, instant - 1), level(Value::Int(number)))
}

#[tactic(auto, unfolding(crate::specs::Marks::instant_mark))]
fn mark(
    out: &mut List<u8>,
    chart: &Chart,
    band: &Band,
    cells: &[Cell],
    start: usize,
    solid: usize,
    instant: usize,
) -> Result<(), Memory>
    requires { instant + 1 < 2 ^ 64 }
    ensures { OnOk result (out.new ≡ out.old ++ instant_mark chart.now band.now cells.now start solid instant) }
{
    match cell_at(cells, instant) {
        Cell::Absent => dot(out, chart, band, instant),
        Cell::Here(Value::Int(n)) => {
            if values_fit(chart, band) && is_news(cells, start, instant, n) {
                return number(out, chart, band, instant < solid, instant, n);
            }
            Ok(())
        }
        Cell::Here(Value::Bool(_)) => Ok(()),
    }
}

/// Appends the marks of the instants from one on, up to another. Values before `solid` are strong.
pub(crate) fn marks(
    out: &mut List<u8>,
    chart: &Chart,
    band: &Band,
    cells: &[Cell],
    start: usize,
    solid: usize,
    end: usize,
) -> Result<(), Memory>
    ensures { OnOk result (out.new ≡ out.old ++ pieces_from (instant_mark chart.now band.now cells.now start solid) start (end - start)) }
{
    for place in 0..end.saturating_sub(start) {
        mark(out, chart, band, cells, start, solid, start + place)?;
    }
    Ok(())
}
