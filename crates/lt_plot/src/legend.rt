// The legend.
ghost use Rattle.std.specs.Prelude.{◌≡◌, ◌<◌, ◌^◌, ◌++◌, OnOk};
ghost use Rattle.lt_plot.specs.Around.{lines_legend, dots_legend, plot_legend};

use lt_base::{List, Memory};
use lt_svg::fill;

#[tactic(auto, unfolding(crate::specs::Around::lines_legend))]
fn lines(out: &mut List<u8>, run: bool, y: u64) -> Result<(), Memory>
    ensures { OnOk result (out.new ≡ out.old ++ lines_legend run y) }
{
    if run {
        return fill(
            out,
            b"<g transform=\"translate(12 %)\"><path d=\"M4 -1h8v-6h12\" class=\"ln\"/><text x=\"30\" class=\"ts s\">the run</text><path d=\"M95 -1h8v-6h12\" class=\"lp\"/><text x=\"121\" class=\"ts s\">the rest of the stream</text><path d=\"M303 -11v14\" class=\"fr\"/><path d=\"M303 -4l-5 -4v8z\" class=\"ex\"/><text x=\"317\" class=\"ts s\">the run's end</text></g>\n",
            &[y],
        );
    }
    fill(
        out,
        b"<g transform=\"translate(12 %)\"><path d=\"M4 -1h8v-6h12\" class=\"ln\"/><text x=\"30\" class=\"ts s\">the stream</text></g>\n",
        &[y],
    )
}

#[tactic(auto, unfolding(crate::specs::Around::dots_legend))]
fn dots_entry(out: &mut List<u8>, run: bool, dots: bool, y: u64) -> Result<(), Memory>
    ensures { OnOk result (out.new ≡ out.old ++ dots_legend run dots y) }
{
    if !dots {
        return Ok(());
    }
    let x = if run { 432 } else { 124 };
    fill(
        out,
        b"<g transform=\"translate(% %)\"><circle cx=\"16\" cy=\"-4\" r=\"1.5\" class=\"dot\"/><text x=\"30\" class=\"ts s\">absent</text></g>\n",
        &[x, y],
    )
}

/// Appends the legend, below the axis.
#[tactic(auto, unfolding(crate::specs::Around::plot_legend))]
pub(crate) fn legend(out: &mut List<u8>, run: bool, dots: bool, bottom: u32) -> Result<(), Memory>
    ensures { OnOk result (out.new ≡ out.old ++ plot_legend run dots bottom) }
{
    let y = u64::from(bottom) + 42;
    lines(out, run, y)?;
    dots_entry(out, run, dots, y)
}
