// A network over links that lose messages, from its layout to what its outputs show.
ghost use Rattle.std.specs.Prelude.{◌≡◌, ◌<◌, ◌≤◌, ◌-◌, [], length};
ghost use Rattle.lt_io.specs.Counts.{MayFail};
ghost use Rattle.lt_base.specs.Behaviour.{RowsFit};
ghost use Rattle.lt_arch.specs.declared.timing.Protocol.TheVariants.{BackPressure};
ghost use Rattle.lt_lossy.specs.Window.{HasWindow};
ghost use Rattle.lt_norm.specs.Flat.{Originated};
ghost use Rattle.lt_rows.specs.Lines.{fresh_lines};
ghost use Rattle.lt_step.specs.Run.{HasRowValues};
ghost use Rattle.lt_place.specs.Layout.{IsPlaced};
ghost use Rattle.lt_net_node.specs.Channels.{IsShapeOf};
ghost use Rattle.lt_net_bench.specs.Starts.{AreReady};
ghost use Rattle.lt_net_lossy.specs.LossySound.{IsLossySound};
ghost use Rattle.lt_net_lossy.specs.LossyReplays.{ReplaysLossy};

use crate::replay::playback::LossyPlayback;
use crate::replay::playing::play;
use lt_base::{Inputs, Memory, Or};
use lt_io::{Fabric, Files};
use lt_lossy::LossyOffence;
use lt_machine::Machine;
use lt_net::Replayed;
use lt_net_bench::laws::shapes_fit;
use lt_net_start::{NetPlan, link_fault};
use lt_rows::Lines;
use lt_schedule::Halt;
use std::alloc::Global;

// Plays the schedule with what acts at the nodes, and takes what it comes to.
fn perform<F: Files, W: Fabric, M: Machine>(
    alloc: Global,
    lines: &mut Lines,
    files: &mut F,
    schedule: &str,
    fabric: &mut W,
    setup: NetPlan,
    losses: u64,
    inputs: &Inputs,
    width: u32,
    machines: Vec<M>,
) -> Result<Replayed<M>, Or<Halt<LossyOffence>>>
    requires fresh { lines.old ≡ fresh_lines }
    requires count { MayFail (F.state files.old).faults }
    requires link_count { MayFail (W.state fabric.old).faults }
    requires empty { (W.state fabric.old).kinds ≡ [] }
    requires placed { (f : Originated) × IsPlaced f setup.layout × RowsFit f.func inputs.now.rows }
    requires sound { IsLossySound setup.layout setup.shape setup.timing }
    requires machines { AreReady M.Machine setup.layout (length inputs.now.rows) machines.items }
    requires width { inputs.now.width ≡ width }
    requires wide { HasRowValues width inputs.now.rows }
    ensures { ReplaysLossy M.Machine setup losses inputs.now schedule.now
        (F.state files.old) (F.state files.new) (W.state fabric.old) (W.state fabric.new) result }
{
    let started = LossyPlayback::start(
        alloc,
        setup.layout,
        setup.shape,
        setup.timing,
        losses,
        inputs,
        width,
        machines,
        fabric,
    );
    match started {
        Ok(playback) => play(alloc, lines, files, schedule, playback, fabric),
        Err(e) => Err(link_fault(e)),
    }
}

/// Takes the nodes of a layout along a schedule file, over links of which each loses at most `losses` messages in a row. The fabric
/// has no channels yet: its channels are those of the shape, which is that of the layout under back-pressure. There is a machine
/// for each node, of its part, and `width` is the number of inputs of `main`. The setup is given away, since a network keeps its own.
///
/// The schedule is refused at its first row or event that is refused. A failed call on the files or on the fabric ends the run.
pub fn replay_lossy<F: Files, W: Fabric, M: Machine>(
    alloc: Global,
    files: &mut F,
    schedule: &str,
    fabric: &mut W,
    setup: NetPlan,
    losses: u64,
    inputs: &Inputs,
    width: u32,
    machines: Vec<M>,
) -> Result<Replayed<M>, Or<Halt<LossyOffence>>>
    requires count { MayFail (F.state files.old).faults }
    requires link_count { MayFail (W.state fabric.old).faults }
    requires empty { (W.state fabric.old).kinds ≡ [] }
    requires placed { (f : Originated) × IsPlaced f setup.layout × RowsFit f.func inputs.now.rows }
    requires protocol { setup.timing.protocol ≡ BackPressure }
    requires shaped { IsShapeOf setup.layout BackPressure setup.shape }
    requires timed { length setup.timing.nodes ≡ length setup.layout.names }
    requires window { HasWindow setup.timing }
    requires few { length setup.layout.names ≤ 32 }
    requires width { inputs.now.width ≡ width }
    requires wide { HasRowValues width inputs.now.rows }
    requires machines { AreReady M.Machine setup.layout (length inputs.now.rows) machines.items }
    ensures { ReplaysLossy M.Machine setup losses inputs.now schedule.now
        (F.state files.old) (F.state files.new) (W.state fabric.old) (W.state fabric.new) result }
{
    shapes_fit();
    match Lines::new(alloc) {
        Ok(lines) => {
            let mut lines = lines;
            let replayed = perform(
                alloc, &mut lines, files, schedule, fabric, setup, losses, inputs, width, machines,
            );
            drop(lines);
            replayed
        }
        Err(Memory) => {
            drop(setup);
            drop(machines);
            Err(Or::Memory)
        }
    }
}
