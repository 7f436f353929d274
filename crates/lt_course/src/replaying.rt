// A schedule file as it is drawn, by a recorder of its events.
ghost use Rattle.std.specs.Prelude.{◌≡◌, []};
ghost use Rattle.lt_io.specs.Counts.{MayFail};
ghost use Rattle.lt_course.specs.Reading.{DrawsFile};
ghost use Rattle.lt_course.specs.Whole.{course_or_fault, halted_course, or_course};

use crate::course::{Course, Stopped};
use crate::drawn::course_of;
use crate::recording::Recording;
use lt_base::Or;
use lt_io::Files;
use lt_load::{CommandFault, What};
use lt_rows::Lines;
use lt_schedule::{Halt, ScheduleRefusal, replay_schedule};
use std::alloc::Global;

/// Has a recorder take the rows of a schedule file, and tells what it is drawn as.
pub fn replay_course<F: Files, R: Recording>(
    alloc: Global,
    files: &mut F,
    schedule: &str,
    recorder: &mut R,
) -> Result<Course, Or<CommandFault>>
    requires count { MayFail (F.state files.old).faults }
    requires fresh { R.stands recorder.old tt 0 [] }
    ensures { DrawsFile (R.rules recorder.old) (R.asked recorder.old) (R.whole recorder.old) schedule.now (F.state files.old) (F.state files.new) result }
{
    let mut lines = Lines::new(alloc)?;
    let replayed = replay_schedule(&mut lines, files, schedule, recorder, &mut ());
    drop(lines);
    match replayed {
        Ok(()) => match course_of(alloc, recorder) {
            Ok(course) => Ok(course),
            Err(_) => Err(Or::Memory),
        },
        Err(halt) => halted_course(halt),
    }
}

// Why rows are not all taken: an offence is drawn.
fn halted_course(halt: Or<Halt<Stopped>>) -> Result<Course, Or<CommandFault>>
    ensures { result ≡ halted_course halt }
{
    match halt {
        Or::Fault(Halt::Refused(refusal)) => refused_course(refusal),
        Or::Fault(Halt::Read) => Err(Or::Fault(CommandFault::Read)),
        Or::Fault(Halt::Link) => Err(Or::Fault(CommandFault::Link)),
        Or::Memory => Err(Or::Memory),
    }
}

fn refused_course(refusal: ScheduleRefusal<Stopped>) -> Result<Course, Or<CommandFault>>
    ensures { result ≡ or_course (course_or_fault refusal) }
{
    match refusal {
        ScheduleRefusal::Row { row, fault } => Err(Or::Fault(CommandFault::Row { row, fault })),
        ScheduleRefusal::Offence { event: _, offence } => Ok(Course {
            excerpt: offence.excerpt,
            pending: offence.pending,
            refused: Some(offence.refused),
            miss: offence.miss,
        }),
        ScheduleRefusal::Bytes => Err(Or::Fault(CommandFault::Limit(What::ScheduleBytes))),
    }
}
