// The first message too few or too many.
ghost use Rattle.std.specs.Prelude.{ℕ, ◌<◌, [], List};
ghost use Rattle.lt_io.specs.Counts.{MayFail};
ghost use Rattle.lt_arch.specs.declared.event.Event.{Event};
ghost use Rattle.lt_arch.specs.declared.shape.Shape.{Shape};
ghost use Rattle.lt_arch.specs.declared.timing.Timing.{Timing};
ghost use Rattle.lt_audit.specs.Standing.{AuditStands};
ghost use Rattle.lt_load.specs.Near.{IsReadNear};
ghost use Rattle.lt_inspect.specs.Audits.{AuditIsTold};
ghost use Rattle.lt_inspect.specs.declared.scene.Scene.{Scene as OfScene};
ghost use Rattle.lt_inspect.specs.Inspected.{IsAudited};
ghost use Rattle.lt_inspect.specs.OnFiles.{AuditsFiles, IsInspectionOver, JudgesSchedule};
ghost use Rattle.lt_inspect.specs.Taking.{HasInspected};

use crate::Audited;
use crate::inspecting::inspect;
use crate::inspection::Inspection;
use crate::loading::load_scene;
use crate::scene::Scene;
use crate::selecting::selects;
use lt_audit::{Auditor, Selection, Tap};
use lt_base::Or;
use lt_io::Files;
use lt_load::CommandFault;
use lt_rows::{MOST_EVENTS, RowFault};
use std::alloc::Global;

// No events.
const NOTHING: Selection = Selection {
    node: None,
    from: 1,
    to: 0,
};

/// Judges a schedule over a program's setup, whose timing need not be accepted, with any number of messages in transit on a channel,
/// and tells the first event at which a node executes with a message too few or too many. The files are read in this order: the
/// program, the setup, the inputs and the schedule.
pub fn audit<F: Files>(
    alloc: Global,
    files: &mut F,
    program: &str,
    inputs: &str,
    schedule: &str,
    config: &str,
) -> Result<Audited, Or<CommandFault>>
    requires { MayFail (F.state files.old).faults }
    ensures { AuditsFiles program.now inputs.now schedule.now config.now (F.state files.old) (F.state files.new) result }
{
    let scene = load_scene(alloc, files, program, inputs, config, None)?;
    audit_scene(alloc, files, scene, schedule)
}

// Judges a schedule over what was loaded.
fn audit_scene<F: Files>(
    alloc: Global,
    files: &mut F,
    scene: Scene,
    schedule: &str,
) -> Result<Audited, Or<CommandFault>>
    requires { MayFail (F.state files.old).faults }
    ensures answered { JudgesSchedule (IsAudited scene) scene schedule.now (F.state files.old) (F.state files.new) result }
    ensures near { IsReadNear schedule.now (F.state files.old) (F.state files.new) result }
{
    let tap = Tap::new(NOTHING, scene.shape.copy()?, selects);
    let mut inspection = Inspection::over(alloc, scene, tap)?;
    let audited = audit_by(alloc, files, schedule, &mut inspection);
    drop(inspection);
    audited
}

// Has an inspection take the events of a schedule file, and tells of its auditor. The tap selects no time, so that no row of an event is
// kept.
fn audit_by<F: Files>(
    alloc: Global,
    files: &mut F,
    schedule: &str,
    inspection: &mut Inspection,
) -> Result<Audited, Or<CommandFault>>
    requires count { MayFail (F.state files.old).faults }
    requires fresh { HasInspected inspection.old [] }
    requires textless { inspection.old.tap.selection.to < inspection.old.tap.selection.from }
    ensures answered { (k : OfScene) → IsInspectionOver inspection.old k → JudgesSchedule (IsAudited k) k schedule.now (F.state files.old) (F.state files.new) result }
    ensures near { (k : OfScene) → IsInspectionOver inspection.old k → IsReadNear schedule.now (F.state files.old) (F.state files.new) result }
{
    inspect(alloc, files, schedule, inspection)?;
    tell(&inspection.auditor)
}

// What is told of an auditor. More events than a schedule may have could come only of files that do not tell their bytes.
fn tell(auditor: &Auditor) -> Result<Audited, Or<CommandFault>>
    requires { (s : Shape) × ((t : Timing) × ((rows : ℕ) × ((es : List Event) × AuditStands auditor.now s t rows es))) }
    ensures { AuditIsTold auditor.now result }
{
    if auditor.taken_count() > MOST_EVENTS {
        return Err(Or::Fault(CommandFault::Row {
            row: MOST_EVENTS + 1,
            fault: RowFault::TooMany,
        }));
    }
    let shape = auditor.shape().copy()?;
    Ok(Audited {
        events: auditor.taken_count(),
        miss: auditor.miss(),
        shape,
    })
}
