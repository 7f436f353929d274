// The instant at which an observer fails first.
ghost use Rattle.std.specs.Prelude.{◌≡◌, ◌++◌, OnOk};
ghost use Rattle.lt_plot.specs.Around.{failure_frame, failure_note, failure_at, plot_failure};

use lt_base::{List, Memory};
use lt_scale::{Chart, is_shown, x_at};
use lt_svg::fill;
use std::cmp::max;

#[tactic(auto, unfolding(crate::specs::Around::failure_frame))]
fn frame(
    out: &mut List<u8>,
    chart: &Chart,
    top: u32,
    bottom: u32,
    instant: u32,
) -> Result<(), Memory>
    ensures { OnOk result (out.new ≡ out.old ++ failure_frame chart.now top bottom instant) }
{
    let x = x_at(chart, instant as usize);
    let breadth = max(2, x_at(chart, instant as usize + 1).saturating_sub(x));
    let above = u64::from(top);
    let height = u64::from(bottom).saturating_sub(above);
    fill(
        out,
        b"<rect x=\"%\" y=\"%\" width=\"%\" height=\"%\" class=\"badz\"/><rect x=\"%\" y=\"%\" width=\"%\" height=\"%\" class=\"bad\"/>\n",
        &[
            x,
            above,
            breadth,
            height,
            x,
            above.saturating_sub(3),
            breadth,
            height + 6,
        ],
    )
}

#[tactic(auto, unfolding(crate::specs::Around::failure_note))]
fn note(out: &mut List<u8>, chart: &Chart, top: u32, instant: u32) -> Result<(), Memory>
    ensures { OnOk result (out.new ≡ out.old ++ failure_note chart.now top instant) }
{
    let y = u64::from(top).saturating_sub(6);
    let start = x_at(chart, instant as usize);
    let number = u64::from(instant);
    if start < u64::from(chart.left) + u64::from(chart.breadth / 2) {
        return fill(
            out,
            b"<text x=\"%\" y=\"%\" class=\"badt b s\">fails at %</text>\n",
            &[start, y, number],
        );
    }
    let end = x_at(chart, instant as usize + 1);
    fill(
        out,
        b"<text x=\"%\" y=\"%\" class=\"badt b s e\">fails at %</text>\n",
        &[end, y, number],
    )
}

fn failure_at(
    out: &mut List<u8>,
    chart: &Chart,
    top: u32,
    bottom: u32,
    instant: u32,
) -> Result<(), Memory>
    ensures { OnOk result (out.new ≡ out.old ++ failure_at chart.now top bottom instant) }
{
    if !is_shown(chart, u64::from(instant)) {
        return Ok(());
    }
    frame(out, chart, top, bottom, instant)?;
    note(out, chart, top, instant)
}

/// Appends a frame over all rows at the instant of the first failure, where it is shown.
#[tactic(auto, unfolding(crate::specs::Around::plot_failure))]
pub(crate) fn failure(
    out: &mut List<u8>,
    chart: &Chart,
    top: u32,
    bottom: u32,
    failure: Option<u32>,
) -> Result<(), Memory>
    ensures { OnOk result (out.new ≡ out.old ++ plot_failure chart.now top bottom failure) }
{
    match failure {
        None => Ok(()),
        Some(instant) => failure_at(out, chart, top, bottom, instant),
    }
}
