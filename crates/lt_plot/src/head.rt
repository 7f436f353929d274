// What stands before the picture, and its lines of text.
ghost use Rattle.std.specs.Prelude.{◌≡◌, ◌++◌, OnOk};
ghost use Rattle.lt_svg.specs.Pieces.{escaped};
ghost use Rattle.lt_plot.specs.Around.{plot_frame, plot_titles, plot_style, plot_head, judgement_text, plot_heading};
ghost use Rattle.lt_plot.specs.PlotText.{rows_top};

use crate::plot::Plot;
use lt_base::{List, Memory};
use lt_svg::{enclosed, fill};

/// The top of the first row: below two lines of text, and a third where an observer watches.
#[tactic(auto, unfolding(crate::specs::PlotText::rows_top))]
pub(crate) fn rows_top(plot: &Plot) -> u32
    ensures { result ≡ rows_top plot.now }
{
    if plot.verdict.is_empty() { 58 } else { 82 }
}

// A text that is to stand between tags, between two others.
fn between(out: &mut List<u8>, before: &[u8], text: &List<u8>, after: &[u8]) -> Result<(), Memory>
    ensures { OnOk result (out.new ≡ out.old ++ (before.now ++ (escaped text.now ++ after.now))) }
{
    enclosed(out, before, text, after)
}

#[tactic(auto, unfolding(crate::specs::Around::plot_frame))]
fn frame(out: &mut List<u8>, width: u64, height: u64) -> Result<(), Memory>
    ensures { OnOk result (out.new ≡ out.old ++ plot_frame width height) }
{
    fill(
        out,
        b"<svg xmlns=\"http://www.w3.org/2000/svg\" width=\"%\" height=\"%\" viewBox=\"0 0 % %\" role=\"img\" aria-labelledby=\"t d\">\n",
        &[width, height, width, height],
    )
}

fn titles(out: &mut List<u8>, plot: &Plot) -> Result<(), Memory>
    ensures { OnOk result (out.new ≡ out.old ++ plot_titles plot.now) }
{
    between(out, b"<title id=\"t\">", &plot.title, b"</title>\n")?;
    between(out, b"<desc id=\"d\">", &plot.facts, b". ")?;
    between(out, b"", &plot.verdict, b"</desc>\n")
}

// The style, light and dark.
#[tactic(auto, unfolding(crate::specs::Around::plot_style))]
fn style(out: &mut List<u8>) -> Result<(), Memory>
    ensures { OnOk result (out.new ≡ out.old ++ plot_style) }
{
    out.extend(
        b"<style>text{font:11px 'DejaVu Sans Mono',Menlo,Consolas,'Liberation Mono',monospace}.b{font-weight:bold}.s{font-size:10px}.e{text-anchor:end}.m{text-anchor:middle}.gr{stroke-opacity:.3}.nl{stroke-width:1}.bad{fill:none;stroke-width:2;stroke-dasharray:6 4}.badz{fill-opacity:.1}.ln{fill:none;stroke-width:2}.lp{fill:none;stroke-width:1.5;stroke-dasharray:3 2}.ar{fill-opacity:.16}.fr{fill:none;stroke-width:1.5}.zb{fill-opacity:.07;fill:#7f8c99}\n",
    )?;
    out.extend(
        b".bg{fill:#ffffff}.gr{stroke:#8a939c}.nl{stroke:#6b747d}.tx{fill:#1c2126}.ts{fill:#59626b}.ex{fill:#12304a}.bad{stroke:#c4170c}.badt{fill:#c4170c}.badz{fill:#c4170c}.ln{stroke:#0069ab}.ar{fill:#0069ab}.lp{stroke:#8fa3b3}.fr{stroke:#12304a}.pv{fill:#6b7a87}.dot{fill:#59626b}\n",
    )?;
    out.extend(
        b"@media(prefers-color-scheme:dark){.bg{fill:#15191e}.gr{stroke:#8a939c}.nl{stroke:#96a0aa}.tx{fill:#e6eaee}.ts{fill:#a5afb9}.ex{fill:#dbe9f6}.bad{stroke:#ff7a5c}.badt{fill:#ff7a5c}.badz{fill:#ff7a5c}.ln{stroke:#5bb8f2}.ar{fill:#5bb8f2}.lp{stroke:#6d8091}.fr{stroke:#dbe9f6}.pv{fill:#93a3b1}.dot{fill:#a5afb9}}</style>\n",
    )
}

/// Appends all that stands before what is drawn.
#[tactic(auto, unfolding(crate::specs::Around::plot_head))]
pub(crate) fn head(out: &mut List<u8>, plot: &Plot, width: u64, height: u64) -> Result<(), Memory>
    ensures { OnOk result (out.new ≡ out.old ++ plot_head plot.now width height) }
{
    frame(out, width, height)?;
    titles(out, plot)?;
    style(out)?;
    fill(
        out,
        b"<rect width=\"%\" height=\"%\" class=\"bg\"/>\n",
        &[width, height],
    )
}

// What an observer says, in red where it fails.
#[tactic(auto, unfolding(crate::specs::Around::judgement_text))]
fn verdict(out: &mut List<u8>, plot: &Plot) -> Result<(), Memory>
    ensures { OnOk result (out.new ≡ out.old ++ judgement_text plot.now) }
{
    if plot.failure.is_some() {
        return between(
            out,
            b"<text x=\"12\" y=\"56\" class=\"badt b\">",
            &plot.verdict,
            b"</text>\n",
        );
    }
    between(
        out,
        b"<text x=\"12\" y=\"56\" class=\"tx b\">",
        &plot.verdict,
        b"</text>\n",
    )
}

/// Appends the title, the facts, and what an observer says.
pub(crate) fn heading(out: &mut List<u8>, plot: &Plot) -> Result<(), Memory>
    ensures { OnOk result (out.new ≡ out.old ++ plot_heading plot.now) }
{
    between(
        out,
        b"<text x=\"12\" y=\"24\" class=\"tx b\">",
        &plot.title,
        b"</text>\n",
    )?;
    between(
        out,
        b"<text x=\"12\" y=\"40\" class=\"ts\">",
        &plot.facts,
        b"</text>\n",
    )?;
    verdict(out, plot)
}
