// `schedule`: a schedule that a seed draws, by the pace of a setup's protocol.
ghost use Rattle.std.specs.Prelude.{◌≤◌, IfSome};
ghost use Rattle.lt_io.specs.Counts.{MayFail};
ghost use Rattle.lt_arch.specs.declared.limits.TheConstants.{GREATEST_TIME};
ghost use Rattle.lt_cli_c.specs.Schedule.{AnswersSchedule};

use lt_base::{List, Or};
use lt_io::Files;
use lt_text_answers::{Refusal, command_text};
use std::alloc::Global;

/// The text of the schedule that the seed draws, up to the horizon; of a thousand messages that may be lost so many are lost as the loss.
pub(crate) fn schedule<F: Files>(
    alloc: Global,
    files: &mut F,
    program: &str,
    inputs: &str,
    config: &str,
    loss: u64,
    seed: u64,
    horizon: u64,
    jitter: Option<u64>,
) -> Result<List<u8>, Or<Refusal>>
    requires files { MayFail (F.state files.old).faults }
    requires horizon { horizon ≤ GREATEST_TIME }
    requires jitter { IfSome jitter (λ part. part ≤ 1000) }
    ensures { AnswersSchedule program.now inputs.now config.now loss seed horizon jitter (F.state files.old) (F.state files.new) result }
{
    let drawn = lt_scheduling::schedule(
        alloc, files, program, inputs, config, loss, seed, horizon, jitter,
    );
    command_text(drawn)
}
