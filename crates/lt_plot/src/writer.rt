// The text of a plot.
ghost use Rattle.std.specs.Prelude.{◌≡◌, ◌++◌, OnOk};
ghost use Rattle.lt_plot.specs.Places.{rows_foot};
ghost use Rattle.lt_plot.specs.Rows.{plot_rows};
ghost use Rattle.lt_plot.specs.PlotText.{plot_drawn, plot_by, plot_text};

use crate::axis::axis;
use crate::failure::failure;
use crate::frame::chart_of;
use crate::head::{head, heading, rows_top};
use crate::legend::legend;
use crate::plot::{Plot, Row};
use crate::row::row;
use lt_base::{List, Memory};
use lt_scale::{Chart, dots_fit, next_top};

// The foot of the last row.
#[tactic(auto, unfolding(crate::specs::Places::rows_foot))]
fn rows_foot(top: u32, rows: &[Row]) -> u32
    ensures { result ≡ rows_foot top rows.now }
{
    rows.iter()
        .fold(top, |above, row| next_top(above, row.truth))
}

fn rows(
    out: &mut List<u8>,
    chart: &Chart,
    run: bool,
    first_top: u32,
    rows: &[Row],
) -> Result<(), Memory>
    ensures { OnOk result (out.new ≡ out.old ++ plot_rows chart.now run first_top rows.now) }
{
    let mut top = first_top;
    'outputs: for item in rows {
        row(out, chart, run, top, item)?;
        top = next_top(top, item.truth);
    }
    Ok(())
}

#[tactic(auto, unfolding(crate::specs::PlotText::plot_drawn))]
fn drawn(
    out: &mut List<u8>,
    chart: &Chart,
    plot: &Plot,
    top: u32,
    bottom: u32,
) -> Result<(), Memory>
    ensures { OnOk result (out.new ≡ out.old ++ plot_drawn chart.now plot.now top bottom) }
{
    rows(out, chart, plot.run, top, &plot.rows)?;
    axis(out, chart, bottom)?;
    failure(out, chart, top, bottom, plot.failure)?;
    legend(out, plot.run, dots_fit(chart), bottom)
}

fn picture(
    out: &mut List<u8>,
    chart: &Chart,
    plot: &Plot,
    top: u32,
    bottom: u32,
) -> Result<(), Memory>
    ensures { OnOk result (out.new ≡ out.old ++ plot_by chart.now plot.now top bottom) }
{
    head(out, plot, u64::from(chart.width), u64::from(bottom) + 54)?;
    heading(out, plot)?;
    drawn(out, chart, plot, top, bottom)?;
    out.extend(b"</svg>\n")
}

/// Appends the picture as one SVG, which stands alone.
///
/// # Errors
///
/// When memory is short. What was appended till then stays.
#[tactic(auto, unfolding(crate::specs::PlotText::plot_text))]
pub fn write_plot(out: &mut List<u8>, plot: &Plot) -> Result<(), Memory>
    ensures { OnOk result (out.new ≡ out.old ++ plot_text plot.now) }
{
    let chart = chart_of(plot);
    let top = rows_top(plot);
    let bottom = rows_foot(top, &plot.rows);
    picture(out, &chart, plot, top, bottom)
}
