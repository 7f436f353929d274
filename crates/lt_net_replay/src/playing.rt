// A whole schedule file.
ghost use Rattle.std.specs.Prelude.{◌≡◌, ◌<◌, ◌-◌, []};
ghost use Rattle.lt_io.specs.Counts.{MayFail};
ghost use Rattle.lt_rows.specs.Lines.{fresh_lines};
ghost use Rattle.lt_net_replay.specs.Playing.{PlaysFor, HasTakenFile};

use crate::playback::Playback;
use lt_arch::{Controller, Offence};
use lt_base::Or;
use lt_io::{Fabric, Files};
use lt_machine::Machine;
use lt_rows::Lines;
use lt_schedule::{Halt, replay_schedule};

/// Has a net that was just started take the events of a schedule file, row by row, over its fabric.
///
/// The file is refused at its first row or event that is refused. After a fault nothing is said of the net but what no event
/// changes.
pub(crate) fn play<F: Files, W: Fabric, C: Controller, M: Machine>(
    lines: &mut Lines,
    files: &mut F,
    name: &str,
    playback: &mut Playback<'_, C, M>,
    fabric: &mut W,
) -> Result<(), Or<Halt<Offence>>>
    requires count { MayFail (F.state files.old).faults }
    requires link_count { MayFail (W.state fabric.old).faults }
    requires fresh { lines.old ≡ fresh_lines }
    requires ready { PlaysFor C.Controller M.Machine playback.old 0 (W.state fabric.old) [] }
    ensures { HasTakenFile C.Controller M.Machine playback.old playback.new name.now
        (F.state files.old) (F.state files.new) (W.state fabric.old) (W.state fabric.new) result }
{
    replay_schedule(lines, files, name, playback, fabric)
}
