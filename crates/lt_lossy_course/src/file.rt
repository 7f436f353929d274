// What a schedule file is drawn as.
ghost use Rattle.std.specs.Prelude.{◌<◌, ◌+◌, ◌*◌, ◌^◌};
ghost use Rattle.lt_io.specs.Counts.{MayFail};
ghost use Rattle.lt_arch.specs.Readers.{chan_count, node_count};
ghost use Rattle.lt_arch.specs.Shapes.{HaveSameNodes};
ghost use Rattle.lt_lossy.specs.Window.{HasWindow};
ghost use Rattle.lt_lossy_course.specs.LossyReading.{ReadsLossyCourse};

use crate::recorder::LossyRecorder;
use lt_arch::{Shape, Timing};
use lt_base::{List, Or};
use lt_course::{Course, replay_course};
use lt_io::Files;
use lt_load::CommandFault;
use lt_place::Crossing;
use lt_tape::Asked;
use std::alloc::Global;

/// What is drawn of a schedule file over these nodes and channels, with these bounds of time, variables that
/// cross and rows of inputs, where so many losses in a row are allowed on a channel and it is asked which ticks are.
pub fn read_lossy_course<F: Files>(
    alloc: Global,
    files: &mut F,
    schedule: &str,
    shape: &Shape,
    timing: &Timing,
    cross: &List<Crossing>,
    limit: u64,
    rows: u32,
    asked: Asked,
) -> Result<Course, Or<CommandFault>>
    requires count { MayFail (F.state files.old).faults }
    requires same { HaveSameNodes shape.now timing.now }
    requires window { HasWindow timing.now }
    requires numbered { 2 * (node_count shape.now + chan_count shape.now) < 2 ^ 32 }
    ensures { ReadsLossyCourse asked cross.now shape.now timing.now limit rows schedule.now (F.state files.old) (F.state files.new) result }
{
    let mut recorder = LossyRecorder::over(alloc, shape, timing, cross, limit, rows, asked)?;
    let course = replay_course(alloc, files, schedule, &mut recorder);
    drop(recorder);
    course
}
