// `plot`: a picture of a program's outputs.
ghost use Rattle.lt_io.specs.Counts.{MayFail};
ghost use Rattle.lt_answer.specs.Alone.{given_word};
ghost use Rattle.lt_cli_c.specs.Plot.{AnswersPlot, given_words};

use lt_base::{List, Or};
use lt_io::Files;
use lt_plotting::PlotView;
use lt_text_answers::{Refusal, observed_text};
use std::alloc::Global;

/// A picture of the outputs over the instants, of the whole streams or along a schedule by a setup.
pub(crate) fn plot<F: Files>(
    alloc: Global,
    files: &mut F,
    program: &str,
    inputs: &str,
    along: Option<(&str, &str)>,
    observer: Option<&str>,
    view: PlotView,
) -> Result<List<u8>, Or<Refusal>>
    requires { MayFail (F.state files.old).faults }
    ensures { AnswersPlot program.now inputs.now (given_words along.entry) (given_word observer.entry) view (F.state files.old) (F.state files.new) result }
{
    let picture = lt_plotting::plot(alloc, files, program, inputs, along, observer, view);
    observed_text(picture)
}
