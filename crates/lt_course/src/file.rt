// What a schedule file is drawn as.
ghost use Rattle.std.specs.Prelude.{◌<◌, ◌+◌, ◌*◌, ◌^◌};
ghost use Rattle.lt_io.specs.Counts.{MayFail};
ghost use Rattle.lt_arch.specs.Readers.{chan_count, node_count};
ghost use Rattle.lt_arch.specs.Shapes.{HaveSameNodes};
ghost use Rattle.lt_course.specs.Reading.{ReadsCourse};

use crate::course::Course;
use crate::recorder::Recorder;
use crate::replaying::replay_course;
use lt_arch::{Shape, Timing};
use lt_base::{List, Or};
use lt_io::Files;
use lt_load::CommandFault;
use lt_place::Crossing;
use lt_tape::Asked;
use std::alloc::Global;

/// What is drawn of a schedule file over these nodes and channels, with these bounds of time, variables that cross and rows of inputs, where it is
/// asked which ticks are.
pub fn read_course<F: Files>(
    alloc: Global,
    files: &mut F,
    schedule: &str,
    shape: &Shape,
    timing: &Timing,
    cross: &List<Crossing>,
    rows: u32,
    asked: Asked,
) -> Result<Course, Or<CommandFault>>
    requires count { MayFail (F.state files.old).faults }
    requires same { HaveSameNodes shape.now timing.now }
    requires numbered { 2 * (node_count shape.now + chan_count shape.now) < 2 ^ 32 }
    ensures { ReadsCourse asked cross.now shape.now timing.now rows schedule.now (F.state files.old) (F.state files.new) result }
{
    let mut recorder = Recorder::over(alloc, shape, timing, cross, rows, asked)?;
    let course = replay_course(alloc, files, schedule, &mut recorder);
    drop(recorder);
    course
}
