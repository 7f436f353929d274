// `audit`: the first message too few or too many along a schedule.
ghost use Rattle.lt_io.specs.Counts.{MayFail};
ghost use Rattle.lt_cli.specs.Commands.Audit.{AnswersAudit};

use lt_base::{List, Or};
use lt_io::Files;
use lt_text_answers::{Refusal, audit_text};
use std::alloc::Global;

/// The first event of a schedule at which a node executes with a message too few or too many.
pub(crate) fn audit<F: Files>(
    alloc: Global,
    files: &mut F,
    program: &str,
    inputs: &str,
    schedule: &str,
    config: &str,
) -> Result<List<u8>, Or<Refusal>>
    requires { MayFail (F.state files.old).faults }
    ensures { AnswersAudit program.now inputs.now schedule.now config.now (F.state files.old) (F.state files.new) result }
{
    let audited = lt_inspect::audit(alloc, files, program, inputs, schedule, config);
    audit_text(alloc, audited)
}
