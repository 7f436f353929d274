// A network from its layout to what its outputs show.
ghost use Rattle.std.specs.Prelude.{◌≡◌, ◌<◌, ◌≤◌, ◌-◌, ℕ, [], length, Some, OnOk};
ghost use Rattle.lt_io.specs.Counts.{MayFail};
ghost use Rattle.lt_base.specs.Behaviour.{RowsFit};
ghost use Rattle.lt_timing.specs.Accepts.{Accepts};
ghost use Rattle.lt_norm.specs.Flat.{Originated};
ghost use Rattle.lt_rows.specs.Lines.{fresh_lines};
ghost use Rattle.lt_step.specs.Run.{HasRowValues};
ghost use Rattle.lt_place.specs.Layout.{IsPlaced};
ghost use Rattle.lt_place.specs.Sizes.{HasCodeRoom};
ghost use Rattle.lt_net_bench.specs.Starts.{AreReady};
ghost use Rattle.lt_lead.specs.Controllers.{AreControllers};
ghost use Rattle.lt_net_replay.specs.Sound.{FitsSomePace, PlanIsSound};
ghost use Rattle.lt_net_start.specs.Ends.{FinishesBy};
ghost use Rattle.lt_net_replay.specs.Replays.{ReplayIsTaken, ReplaysPlan};

use crate::laws::networks_are_sound;
use crate::playback::Playback;
use crate::playing::play;
use crate::taking::take;
use lt_arch::{Controller, Offence};
use lt_base::{Inputs, Memory, Or};
use lt_io::{Fabric, Files};
use lt_lead::controllers_of;
use lt_machine::Machine;
use lt_net::{Net, Replayed};
use lt_net_start::{NetPlan, link_fault};
use lt_rows::Lines;
use lt_schedule::Halt;
use std::alloc::Global;

// What a net comes to that has taken a file to its end, or why it has not.
fn finish<C: Controller, M: Machine>(
    alloc: Global,
    net: Net<C, M>,
    played: Result<(), Or<Halt<Offence>>>,
) -> Result<Replayed<M>, Or<Halt<Offence>>>
    requires { OnOk played ((h : ℕ) × (net.bench.watch.horizon ≡ Some h)) }
    ensures { FinishesBy (ReplayIsTaken net.bench) played result }
{
    match played {
        Ok(()) => Ok(take(alloc, net)?),
        Err(fault) => {
            drop(net);
            Err(fault)
        }
    }
}

// Plays the schedule with what acts at the nodes, and takes what it comes to.
fn perform<F: Files, W: Fabric, C: Controller, M: Machine>(
    alloc: Global,
    lines: &mut Lines,
    files: &mut F,
    schedule: &str,
    fabric: &mut W,
    setup: NetPlan,
    machines: Vec<M>,
    controllers: Vec<C>,
    inputs: &Inputs,
    width: u32,
) -> Result<Replayed<M>, Or<Halt<Offence>>>
    requires fresh { lines.old ≡ fresh_lines }
    requires count { MayFail (F.state files.old).faults }
    requires link_count { MayFail (W.state fabric.old).faults }
    requires empty { (W.state fabric.old).kinds ≡ [] }
    requires placed { (f : Originated) × IsPlaced f setup.layout × RowsFit f.func inputs.now.rows }
    requires sound { PlanIsSound setup.layout setup.shape setup.timing (length inputs.now.rows) }
    requires few { length setup.layout.names ≤ 32 }
    requires machines { AreReady M.Machine setup.layout (length inputs.now.rows) machines.items }
    requires controllers { AreControllers C.Controller setup.timing controllers.items }
    requires width { inputs.now.width ≡ width }
    requires wide { HasRowValues width inputs.now.rows }
    ensures { ReplaysPlan M.Machine setup inputs.now schedule.now
        (F.state files.old) (F.state files.new) (W.state fabric.old) (W.state fabric.new) result }
{
    let started = Playback::start(
        alloc,
        setup.layout,
        setup.shape,
        setup.timing,
        inputs,
        width,
        machines,
        controllers,
        fabric,
    );
    match started {
        Ok(mut playback) => {
            let played = play(lines, files, schedule, &mut playback, fabric);
            playback.net.invariant_holds();
            finish(alloc, playback.net, played)
        }
        Err(e) => Err(link_fault(e)),
    }
}

// Plays the schedule with a controller of the timing's protocol at each node.
fn replay_by<F: Files, W: Fabric, M: Machine>(
    alloc: Global,
    lines: Lines,
    files: &mut F,
    schedule: &str,
    fabric: &mut W,
    setup: NetPlan,
    machines: Vec<M>,
    inputs: &Inputs,
    width: u32,
) -> Result<Replayed<M>, Or<Halt<Offence>>>
    requires fresh { lines ≡ fresh_lines }
    requires count { MayFail (F.state files.old).faults }
    requires link_count { MayFail (W.state fabric.old).faults }
    requires empty { (W.state fabric.old).kinds ≡ [] }
    requires placed { (f : Originated) × IsPlaced f setup.layout × RowsFit f.func inputs.now.rows }
    requires sound { PlanIsSound setup.layout setup.shape setup.timing (length inputs.now.rows) }
    requires few { length setup.layout.names ≤ 32 }
    requires machines { AreReady M.Machine setup.layout (length inputs.now.rows) machines.items }
    requires width { inputs.now.width ≡ width }
    requires wide { HasRowValues width inputs.now.rows }
    ensures { ReplaysPlan M.Machine setup inputs.now schedule.now
        (F.state files.old) (F.state files.new) (W.state fabric.old) (W.state fabric.new) result }
{
    let mut lines = lines;
    match controllers_of(alloc, &setup.timing) {
        Ok(controllers) => {
            let replayed = perform(
                alloc,
                &mut lines,
                files,
                schedule,
                fabric,
                setup,
                machines,
                controllers,
                inputs,
                width,
            );
            drop(lines);
            replayed
        }
        Err(Memory) => {
            drop(lines);
            drop(setup);
            drop(machines);
            Err(Or::Memory)
        }
    }
}

/// Takes the nodes of a layout along a schedule file, over a fabric that has no channels yet: its channels are those of the shape. The
/// setup is given away, since a network keeps its own.
/// There is a machine for each node, of its part, and `width` is the number of inputs of `main`.
///
/// The schedule is refused at its first row or event that is refused. A failed call on the files or on the fabric ends the run.
pub fn replay<F: Files, W: Fabric, M: Machine>(
    alloc: Global,
    files: &mut F,
    schedule: &str,
    fabric: &mut W,
    setup: NetPlan,
    inputs: &Inputs,
    width: u32,
    machines: Vec<M>,
) -> Result<Replayed<M>, Or<Halt<Offence>>>
    requires count { MayFail (F.state files.old).faults }
    requires link_count { MayFail (W.state fabric.old).faults }
    requires empty { (W.state fabric.old).kinds ≡ [] }
    requires placed { (f : Originated) × IsPlaced f setup.layout × HasCodeRoom f.func × RowsFit f.func inputs.now.rows }
    requires paced { FitsSomePace setup.layout setup.shape setup.timing }
    requires accepted { Accepts setup.timing }
    requires timed { length setup.timing.nodes ≡ length setup.layout.names }
    requires few { length setup.layout.names ≤ 32 }
    requires width { inputs.now.width ≡ width }
    requires wide { HasRowValues width inputs.now.rows }
    requires machines { AreReady M.Machine setup.layout (length inputs.now.rows) machines.items }
    ensures { ReplaysPlan M.Machine setup inputs.now schedule.now
        (F.state files.old) (F.state files.new) (W.state fabric.old) (W.state fabric.new) result }
{
    networks_are_sound();
    match Lines::new(alloc) {
        Ok(lines) => replay_by(
            alloc, lines, files, schedule, fabric, setup, machines, inputs, width,
        ),
        Err(Memory) => {
            drop(setup);
            drop(machines);
            Err(Or::Memory)
        }
    }
}
