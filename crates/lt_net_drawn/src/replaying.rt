// A network from its layout to what its outputs show, along a drawn list of events.
ghost use Rattle.std.specs.Prelude.{◌≡◌, ◌<◌, ◌≤◌, ◌-◌, ◌^◌, ℕ, [], length, Some, OnOk};
ghost use Rattle.lt_io.specs.Counts.{MayFail};
ghost use Rattle.lt_base.specs.Behaviour.{RowsFit};
ghost use Rattle.lt_arch.specs.declared.limits.TheConstants.{GREATEST_TIME};
ghost use Rattle.lt_timing.specs.Accepts.{Accepts};
ghost use Rattle.lt_norm.specs.Flat.{Originated};
ghost use Rattle.lt_rows.specs.Limits.{most_events};
ghost use Rattle.lt_step.specs.Run.{HasRowValues};
ghost use Rattle.lt_place.specs.Layout.{IsPlaced};
ghost use Rattle.lt_net_bench.specs.Starts.{AreReady};
ghost use Rattle.lt_lead.specs.Controllers.{AreControllers};
ghost use Rattle.lt_net_replay.specs.Sound.{FitsSomePace, PlanIsSound};
ghost use Rattle.lt_net_replay.specs.Replays.{ReplayIsTaken};
ghost use Rattle.lt_sim.specs.Drawn.{drawn};
ghost use Rattle.lt_sim.specs.Standing.{DrawingStarts, DrawsFewEvents};
ghost use Rattle.lt_net_drawn.specs.Listed.{HasReplayedList, EndsPlay};

use crate::playing::play;
use lt_arch::{Controller, Shape, Timing};
use lt_base::Inputs;
use lt_io::{Fabric, LinkErr};
use lt_lead::controllers_of;
use lt_machine::Machine;
use lt_net::{Net, Replayed};
use lt_net_replay::laws::networks_are_sound;
use lt_net_replay::playback::Playback;
use lt_net_replay::taking::take;
use lt_net_start::{NetPlan, copies};
use lt_place::Layout;
use lt_sim::drawing::Drawing;
use std::alloc::Global;

// What a net comes to that has taken a list to its end, or why it has not.
fn finish<C: Controller, M: Machine>(
    alloc: Global,
    net: Net<C, M>,
    played: Result<(), LinkErr>,
) -> Result<Replayed<M>, LinkErr>
    requires { OnOk played ((h : ℕ) × (net.bench.watch.horizon ≡ Some h)) }
    ensures { EndsPlay (ReplayIsTaken net.bench) played result }
{
    match played {
        Ok(()) => Ok(take(alloc, net)?),
        Err(e) => {
            drop(net);
            Err(e)
        }
    }
}

// Has the nodes take the list with what acts at them, and takes what it comes to.
fn perform<W: Fabric, C: Controller, M: Machine>(
    alloc: Global,
    fabric: &mut W,
    setup: NetPlan,
    machines: Vec<M>,
    controllers: Vec<C>,
    inputs: &Inputs,
    width: u32,
    drawing: &mut Drawing,
    shape: &Shape,
    timing: &Timing,
    horizon: u64,
) -> Result<Replayed<M>, LinkErr>
    requires shape { shape.now ≡ setup.shape }
    requires timing { timing.now ≡ setup.timing }
    requires horizon { horizon ≤ GREATEST_TIME }
    requires starts { DrawsFewEvents drawing.old setup.shape setup.timing (length inputs.now.rows) horizon }
    requires count { MayFail (W.state fabric.old).faults }
    requires empty { (W.state fabric.old).kinds ≡ [] }
    requires placed { (f : Originated) × IsPlaced f setup.layout × RowsFit f.func inputs.now.rows }
    requires sound { PlanIsSound setup.layout setup.shape setup.timing (length inputs.now.rows) }
    requires few { length setup.layout.names ≤ 32 }
    requires machines { AreReady M.Machine setup.layout (length inputs.now.rows) machines.items }
    requires controllers { AreControllers C.Controller setup.timing controllers.items }
    requires width { inputs.now.width ≡ width }
    requires wide { HasRowValues width inputs.now.rows }
    ensures { (seed : ℕ) → DrawingStarts drawing.old setup.shape setup.timing seed → HasReplayedList M.Machine setup.layout setup.shape setup.timing inputs.now.rows
        (drawn setup.shape setup.timing (length inputs.now.rows) seed horizon) (W.state fabric.old) (W.state fabric.new) result }
{
    let started = Playback::start(
        alloc,
        setup.layout,
        setup.shape,
        setup.timing,
        inputs,
        width,
        machines,
        controllers,
        fabric,
    );
    match started {
        Ok(mut playback) => {
            let played = play(
                drawing,
                &mut playback,
                shape,
                timing,
                inputs.rows(),
                horizon,
                fabric,
            );
            playback.net.invariant_holds();
            finish(alloc, playback.net, played)
        }
        Err(e) => Err(e),
    }
}

/// Takes the nodes of a layout along the list of events that a seed draws for them up to a horizon in ticks, over a fabric that has no
/// channels yet. There is a machine for each node, of its part, and `width` is the number of inputs of `main`.
///
/// Each event is taken as it is drawn, and what is kept besides the cells does not grow with the list. A failed call on the fabric
/// ends the run.
pub fn replay_drawn<W: Fabric, M: Machine>(
    alloc: Global,
    fabric: &mut W,
    layout: &Layout,
    shape: &Shape,
    timing: &Timing,
    inputs: &Inputs,
    width: u32,
    machines: Vec<M>,
    seed: u64,
    horizon: u64,
) -> Result<Replayed<M>, LinkErr>
    requires horizon { horizon ≤ GREATEST_TIME }
    requires few_events { length (drawn shape.now timing.now (length inputs.now.rows) seed horizon) ≤ most_events }
    requires count { MayFail (W.state fabric.old).faults }
    requires empty { (W.state fabric.old).kinds ≡ [] }
    requires placed { (f : Originated) × IsPlaced f layout.now × RowsFit f.func inputs.now.rows }
    requires paced { FitsSomePace layout.now shape.now timing.now }
    requires accepted { Accepts timing.now }
    requires timed { length timing.now.nodes ≡ length layout.now.names }
    requires few { length layout.now.names ≤ 32 }
    requires width { inputs.now.width ≡ width }
    requires wide { HasRowValues width inputs.now.rows }
    requires machines { AreReady M.Machine layout.now (length inputs.now.rows) machines.items }
    ensures { HasReplayedList M.Machine layout.now shape.now timing.now inputs.now.rows
        (drawn shape.now timing.now (length inputs.now.rows) seed horizon) (W.state fabric.old) (W.state fabric.new) result }
{
    networks_are_sound();
    let mut drawing = Drawing::start(alloc, shape, timing, seed)?;
    let controllers = controllers_of(alloc, timing)?;
    let setup = copies(layout, shape, timing)?;
    perform(
        alloc,
        fabric,
        setup,
        machines,
        controllers,
        inputs,
        width,
        &mut drawing,
        shape,
        timing,
        horizon,
    )
}
