// The schedule of what was loaded.
ghost use Rattle.std.specs.Prelude.{◌≡◌, ◌<◌, ◌≤◌, Some, None, Err, IfSome};
ghost use Rattle.lt_answer.specs.Answered.{Settles};
ghost use Rattle.lt_answer.specs.Rules.{Exactly};
ghost use Rattle.lt_arch.specs.declared.limits.TheConstants.{GREATEST_TIME};
ghost use Rattle.lt_narrow.specs.Narrow.{HasBoundsWithin};
ghost use Rattle.lt_scheduling.specs.Scheduled.{asks_losses, losses_fault};
ghost use Rattle.lt_scheduling.specs.Stage.{drawn_by_verdict, jittered_verdict, loaded_schedule_verdict};

use crate::recorded::{draw_arriving, draw_losing};
use lt_arch::Timing;
use lt_base::{List, Name, Or};
use lt_config::{ConfigFault, ConfigKind, Pace};
use lt_load::{CommandFault, Loaded};
use lt_narrow::laws::narrows_within;
use lt_narrow::narrowed;
use std::alloc::Global;

/// Draws the schedule of what was loaded, by the pace of its protocol.
pub(crate) fn draw(
    alloc: Global,
    loaded: &Loaded,
    loss: u64,
    seed: u64,
    horizon: u64,
    jitter: Option<u64>,
) -> Result<List<u8>, Or<CommandFault>>
    requires horizon { horizon ≤ GREATEST_TIME }
    requires jitter { IfSome jitter (λ part. part ≤ 1000) }
    ensures { Settles (loaded_schedule_verdict loss seed horizon jitter loaded.now) result }
{
    if asks_losses(loaded.pace, loss) {
        return refuse(alloc);
    }
    draw_jittered(alloc, loaded, loss, seed, horizon, jitter)
}

// Whether messages are to be lost, and links lose none under this pace.
fn asks_losses(pace: Pace, loss: u64) -> bool
    ensures { result ≡ asks_losses pace loss }
{
    match pace {
        Pace::Plain => 0 < loss,
        Pace::Lossy(_) => false,
        Pace::Leader(_) => 0 < loss,
    }
}

// The refusal of losses where links lose no messages.
fn refuse(alloc: Global) -> Result<List<u8>, Or<CommandFault>>
    ensures { Settles (Exactly (Err losses_fault)) result }
{
    let key = Name::from_str(alloc, "losses")?;
    Err(Or::Fault(CommandFault::Config(ConfigFault {
        kind: ConfigKind::OutOfRange,
        key,
    })))
}

// Draws the schedule by the timing of what was loaded, or with its periods narrowed.
fn draw_jittered(
    alloc: Global,
    loaded: &Loaded,
    loss: u64,
    seed: u64,
    horizon: u64,
    jitter: Option<u64>,
) -> Result<List<u8>, Or<CommandFault>>
    requires horizon { horizon ≤ GREATEST_TIME }
    requires jitter { IfSome jitter (λ part. part ≤ 1000) }
    ensures { Settles (jittered_verdict loss seed horizon jitter loaded.now) result }
{
    match jitter {
        Some(part) => draw_narrowed(alloc, loaded, loss, seed, horizon, part),
        None => draw_whole(alloc, loaded, loss, seed, horizon),
    }
}

// Draws the schedule with periods from so many thousandths of their intervals.
fn draw_narrowed(
    alloc: Global,
    loaded: &Loaded,
    loss: u64,
    seed: u64,
    horizon: u64,
    part: u64,
) -> Result<List<u8>, Or<CommandFault>>
    requires horizon { horizon ≤ GREATEST_TIME }
    requires jitter { part ≤ 1000 }
    ensures { Settles (jittered_verdict loss seed horizon (Some part) loaded.now) result }
{
    narrows_within();
    let timing = narrowed(alloc, &loaded.timing, part)?;
    let text = draw_by(alloc, loaded.pace, loaded, &timing, loss, seed, horizon);
    drop(timing);
    text
}

// Draws the schedule with periods from their whole intervals.
fn draw_whole(
    alloc: Global,
    loaded: &Loaded,
    loss: u64,
    seed: u64,
    horizon: u64,
) -> Result<List<u8>, Or<CommandFault>>
    requires horizon { horizon ≤ GREATEST_TIME }
    ensures { Settles (jittered_verdict loss seed horizon None loaded.now) result }
{
    draw_by(
        alloc,
        loaded.pace,
        loaded,
        &loaded.timing,
        loss,
        seed,
        horizon,
    )
}

// Draws the schedule by a timing within the bounds of what was loaded, by this pace.
fn draw_by(
    alloc: Global,
    pace: Pace,
    loaded: &Loaded,
    timing: &Timing,
    loss: u64,
    seed: u64,
    horizon: u64,
) -> Result<List<u8>, Or<CommandFault>>
    requires horizon { horizon ≤ GREATEST_TIME }
    requires within { HasBoundsWithin loaded.now.timing timing.now }
    ensures { Settles (drawn_by_verdict pace loss seed horizon loaded.now timing.now) result }
{
    match pace {
        Pace::Plain => draw_arriving(alloc, loaded, timing, seed, horizon),
        Pace::Lossy(limit) => draw_losing(alloc, loaded, timing, limit, loss, seed, horizon),
        Pace::Leader(_) => draw_arriving(alloc, loaded, timing, seed, horizon),
    }
}
