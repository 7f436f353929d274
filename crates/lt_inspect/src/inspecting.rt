// A schedule file, taken row by row.
ghost use Rattle.std.specs.Prelude.{◌≡◌, [], List, OnOk};
ghost use Rattle.lt_io.specs.Counts.{MayFail};
ghost use Rattle.lt_arch.specs.declared.event.Event.{Event};
ghost use Rattle.lt_load.specs.Near.{IsReadNear};
ghost use Rattle.lt_inspect.specs.Inspecting.{AsFault};
ghost use Rattle.lt_inspect.specs.OnFiles.{InspectsSchedule};
ghost use Rattle.lt_inspect.specs.Taking.{HasInspected};
ghost use Rattle.lt_base.specs.declared.memory.Or.TheVariants as either;
ghost use Rattle.lt_schedule.specs.declared.halt.Halt.TheVariants as halts;

use crate::inspection::Inspection;
use lt_arch::{Offence, Shape};
use lt_base::Or;
use lt_io::Files;
use lt_load::{CommandFault, What};
use lt_rows::Lines;
use lt_schedule::{Halt, ScheduleRefusal, replay_schedule};
use std::alloc::Global;

/// Has an inspection take the events of a schedule file.
///
/// The file is refused at its first row or event that is refused: at one row the limit on bytes comes first, then the limit on
/// events, then the row's own fault, and then the event's offence.
pub fn inspect<F: Files>(
    alloc: Global,
    files: &mut F,
    schedule: &str,
    inspection: &mut Inspection,
) -> Result<(), Or<CommandFault>>
    requires count { MayFail (F.state files.old).faults }
    requires fresh { HasInspected inspection.old [] }
    ensures answered { InspectsSchedule inspection.old inspection.new schedule.now (F.state files.old) (F.state files.new) result }
    ensures near { IsReadNear schedule.now (F.state files.old) (F.state files.new) result }
    ensures ended { OnOk result ((events : List Event) × HasInspected inspection.new events) }
    ensures shape { inspection.new.auditor.shape ≡ inspection.old.auditor.shape }
    ensures timing { inspection.new.auditor.watch.timing ≡ inspection.old.auditor.watch.timing }
    ensures rows { inspection.new.auditor.rows ≡ inspection.old.auditor.rows }
    ensures selection { inspection.new.tap.selection ≡ inspection.old.tap.selection }
{
    let mut lines = Lines::new(alloc)?;
    let replayed = replay_schedule(&mut lines, files, schedule, inspection, &mut ());
    drop(lines);
    match replayed {
        Ok(()) => Ok(()),
        Err(halt) => Err(as_fault(inspection.auditor.shape(), halt)),
    }
}

// Why rows are not all taken, as a command's fault, with a copy of the shape whose nodes it names.
fn as_fault(shape: &Shape, halt: Or<Halt<Offence>>) -> Or<CommandFault>
    ensures { AsFault shape.now halt result }
{
    match halt {
        Or::Fault(Halt::Refused(refusal)) => refused(shape, refusal),
        Or::Fault(Halt::Read) => Or::Fault(CommandFault::Read),
        Or::Fault(Halt::Link) => Or::Fault(CommandFault::Link),
        Or::Memory => Or::Memory,
    }
}

fn refused(shape: &Shape, refusal: ScheduleRefusal<Offence>) -> Or<CommandFault>
    ensures { AsFault shape.now (either.Fault (halts.Refused refusal)) result }
{
    match refusal {
        ScheduleRefusal::Row { row, fault } => Or::Fault(CommandFault::Row { row, fault }),
        ScheduleRefusal::Offence { event, offence } => match shape.copy() {
            Ok(shape) => Or::Fault(CommandFault::Offence {
                event,
                offence,
                shape,
            }),
            Err(_) => Or::Memory,
        },
        ScheduleRefusal::Bytes => Or::Fault(CommandFault::Limit(What::ScheduleBytes)),
    }
}
