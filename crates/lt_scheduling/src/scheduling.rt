// The schedule of a program, its inputs and a setup, from their files.
ghost use Rattle.std.specs.Prelude.{◌≡◌, ◌≤◌, IfSome};
ghost use Rattle.lt_io.specs.Counts.{MayFail};
ghost use Rattle.lt_arch.specs.declared.limits.TheConstants.{GREATEST_TIME};
ghost use Rattle.lt_scheduling.specs.Scheduled.{SchedulesOnFiles};

use crate::drawing::draw;
use lt_base::{List, Or};
use lt_io::Files;
use lt_load::{CommandFault, load};
use std::alloc::Global;

/// The text of the schedule that the seed draws up to the horizon, for the program of a file with its inputs and its setup. Of a thousand messages that
/// may be lost so many are lost as `loss` says; where links lose none, a loss but 0 is refused. With a jitter periods are drawn from so many thousandths
/// of their intervals, around the middle. The files are read in this order: the program, the setup and the inputs.
pub fn schedule<F: Files>(
    alloc: Global,
    files: &mut F,
    program: &str,
    inputs: &str,
    config: &str,
    loss: u64,
    seed: u64,
    horizon: u64,
    jitter: Option<u64>,
) -> Result<List<u8>, Or<CommandFault>>
    requires files { MayFail (F.state files.old).faults }
    requires horizon { horizon ≤ GREATEST_TIME }
    requires jitter { IfSome jitter (λ part. part ≤ 1000) }
    ensures { SchedulesOnFiles program.now inputs.now config.now loss seed horizon jitter (F.state files.old) (F.state files.new) result }
{
    let loaded = load(alloc, files, program, inputs, Some(config))?;
    let text = draw(alloc, &loaded, loss, seed, horizon, jitter);
    drop(loaded);
    text
}
