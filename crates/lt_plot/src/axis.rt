// The axis of instants.
ghost use Rattle.std.specs.Prelude.{◌≡◌, ◌<◌, ◌+◌, ◌^◌, ◌++◌, OnOk};
ghost use Rattle.lt_plot.specs.Around.{plot_tick, plot_ticks, plot_axis};

use lt_base::{List, Memory};
use lt_scale::{Chart, right, tick_step, x_middle};
use lt_svg::fill;
use std::cmp::max;

#[tactic(auto, unfolding(crate::specs::Around::plot_tick))]
fn tick(
    out: &mut List<u8>,
    chart: &Chart,
    bottom: u32,
    step: u32,
    instant: usize,
) -> Result<(), Memory>
    requires { instant + 1 < 2 ^ 64 }
    ensures { OnOk result (out.new ≡ out.old ++ plot_tick chart.now bottom step instant) }
{
    if instant % (max(step, 1) as usize) != 0 {
        return Ok(());
    }
    let x = x_middle(chart, instant);
    let y = u64::from(bottom);
    fill(
        out,
        b"<path d=\"M% %v5\" class=\"nl\"/><text x=\"%\" y=\"%\" class=\"ts m s\">%</text>\n",
        &[x, y + 4, x, y + 21, instant as u64],
    )
}

fn ticks(out: &mut List<u8>, chart: &Chart, bottom: u32, step: u32) -> Result<(), Memory>
    ensures { OnOk result (out.new ≡ out.old ++ plot_ticks chart.now bottom step) }
{
    let first = chart.first as usize;
    for place in 0..chart.count as usize {
        tick(out, chart, bottom, step, first + place)?;
    }
    Ok(())
}

/// Appends the axis below the rows.
#[tactic(auto, unfolding(crate::specs::Around::plot_axis))]
pub(crate) fn axis(out: &mut List<u8>, chart: &Chart, bottom: u32) -> Result<(), Memory>
    ensures { OnOk result (out.new ≡ out.old ++ plot_axis chart.now bottom) }
{
    let y = u64::from(bottom);
    fill(
        out,
        b"<path d=\"M% %H%\" class=\"nl\"/><text x=\"12\" y=\"%\" class=\"ts s\">instant</text>\n",
        &[u64::from(chart.left), y + 4, right(chart), y + 21],
    )?;
    ticks(out, chart, bottom, tick_step(chart))
}
