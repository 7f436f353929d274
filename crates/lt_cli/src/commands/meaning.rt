// `meaning`: the outputs of a program on all rows of its inputs.
ghost use Rattle.lt_io.specs.Counts.{MayFail};
ghost use Rattle.lt_cli.specs.Commands.Meaning.{AnswersMeaning};

use lt_base::{List, Or};
use lt_io::Files;
use lt_text_answers::{Refusal, outputs_text};
use std::alloc::Global;

/// The outputs of a program on all rows of its inputs.
pub(crate) fn meaning<F: Files>(
    alloc: Global,
    files: &mut F,
    program: &str,
    inputs: &str,
) -> Result<List<u8>, Or<Refusal>>
    requires { MayFail (F.state files.old).faults }
    ensures { AnswersMeaning program.now inputs.now (F.state files.old) (F.state files.new) result }
{
    let found = lt_evaluate::meaning(alloc, files, program, inputs);
    outputs_text(alloc, found)
}
