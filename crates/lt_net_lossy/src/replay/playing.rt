// A whole schedule file.
ghost use Rattle.std.specs.Prelude.{◌≡◌, ◌<◌, ◌-◌, ℕ, [], Some, OnOk};
ghost use Rattle.lt_io.specs.Counts.{MayFail};
ghost use Rattle.lt_rows.specs.Lines.{fresh_lines};
ghost use Rattle.lt_net_start.specs.Ends.{FinishesBy};
ghost use Rattle.lt_net_lossy.specs.LossyPlays.{IsTakenFrom};
ghost use Rattle.lt_net_lossy.specs.LossyPlaying.{StandsForLossy, HasTakenLossy};

use crate::LossyNet;
use crate::replay::playback::LossyPlayback;
use crate::replay::taking::take;
use lt_arch::Controller;
use lt_base::Or;
use lt_bp::BackPressure;
use lt_io::{Fabric, Files};
use lt_lossy::LossyOffence;
use lt_machine::Machine;
use lt_net::Replayed;
use lt_rows::Lines;
use lt_schedule::{Halt, replay_schedule};
use std::alloc::Global;

/// Has a net that was just started take the events of a schedule file, row by row, over its fabric, and takes what it comes to.
///
/// The file is refused at its first row or event that is refused.
pub(crate) fn play<F: Files, W: Fabric, M: Machine>(
    alloc: Global,
    lines: &mut Lines,
    files: &mut F,
    name: &str,
    playback: LossyPlayback<'_, M>,
    fabric: &mut W,
) -> Result<Replayed<M>, Or<Halt<LossyOffence>>>
    requires count { MayFail (F.state files.old).faults }
    requires link_count { MayFail (W.state fabric.old).faults }
    requires fresh { lines.old ≡ fresh_lines }
    requires ready { StandsForLossy ⟦<BackPressure as Controller>⟧ M.Machine playback (W.state fabric.old) [] }
    ensures { HasTakenLossy M.Machine playback.entry name.now
        (F.state files.old) (F.state files.new) (W.state fabric.old) (W.state fabric.new) result }
{
    let mut playback = playback;
    let answer = replay_schedule(lines, files, name, &mut playback, fabric);
    playback.net.invariant_holds();
    finish(alloc, playback.net, answer)
}

// What a net comes to that has taken a file to its end, or why it has not.
fn finish<M: Machine>(
    alloc: Global,
    net: LossyNet<M>,
    answer: Result<(), Or<Halt<LossyOffence>>>,
) -> Result<Replayed<M>, Or<Halt<LossyOffence>>>
    requires { OnOk answer ((h : ℕ) × (net.bench.watch.horizon ≡ Some h)) }
    ensures { FinishesBy (IsTakenFrom net.bench) answer result }
{
    match answer {
        Ok(()) => take(alloc, net),
        Err(halt) => {
            drop(net);
            Err(halt)
        }
    }
}
