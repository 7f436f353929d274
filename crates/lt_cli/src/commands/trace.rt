// `trace`: a schedule of the events that are selected.
ghost use Rattle.lt_io.specs.Counts.{MayFail};
ghost use Rattle.lt_answer.specs.Alone.{given_word};
ghost use Rattle.lt_cli.specs.Commands.Trace.{AnswersTrace};

use lt_base::{List, Or};
use lt_io::Files;
use lt_text_answers::{Refusal, trace_text};
use std::alloc::Global;

/// A schedule of the events that are selected.
pub(crate) fn trace<F: Files>(
    alloc: Global,
    files: &mut F,
    program: &str,
    inputs: &str,
    schedule: &str,
    config: &str,
    node: Option<&str>,
    from: u64,
    to: u64,
) -> Result<List<u8>, Or<Refusal>>
    requires { MayFail (F.state files.old).faults }
    ensures { AnswersTrace program.now inputs.now schedule.now config.now (given_word node.entry) from to (F.state files.old) (F.state files.new) result }
{
    let text = lt_inspect::trace(
        alloc, files, program, inputs, schedule, config, node, from, to,
    );
    trace_text(text)
}
