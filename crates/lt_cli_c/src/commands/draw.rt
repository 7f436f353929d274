// `draw`: a picture of a schedule.
ghost use Rattle.lt_io.specs.Counts.{MayFail};
ghost use Rattle.lt_answer.specs.Alone.{given_word};
ghost use Rattle.lt_cli_c.specs.Draw.{AnswersDraw};

use lt_base::{List, Or};
use lt_drawing::DrawView;
use lt_io::Files;
use lt_text_answers::{Refusal, command_text};
use std::alloc::Global;

/// A picture of what happens in a schedule, at one node alone where it is named.
pub(crate) fn draw<F: Files>(
    alloc: Global,
    files: &mut F,
    program: &str,
    inputs: &str,
    schedule: &str,
    config: &str,
    node: Option<&str>,
    view: DrawView,
) -> Result<List<u8>, Or<Refusal>>
    requires { MayFail (F.state files.old).faults }
    ensures { AnswersDraw program.now inputs.now schedule.now config.now (given_word node.entry) view (F.state files.old) (F.state files.new) result }
{
    let picture = lt_drawing::draw(alloc, files, program, inputs, schedule, config, node, view);
    command_text(picture)
}
