// A loaded program along a schedule.
ghost use Rattle.std.specs.Prelude.{◌≡◌, ◌<◌, ◌≤◌, ◌-◌, ◌^◌, [], length, None};
ghost use Rattle.lt_io.specs.Counts.{MayFail};
ghost use Rattle.lt_base.specs.Behaviour.{RowsFit};
ghost use Rattle.lt_norm.specs.Flat.{Originated};
ghost use Rattle.lt_timing.specs.Accepts.{Accepts};
ghost use Rattle.lt_step.specs.Run.{HasRowValues};
ghost use Rattle.lt_place.specs.Layout.{IsPlaced};
ghost use Rattle.lt_place.specs.Sizes.{HasCodeRoom};
ghost use Rattle.lt_net_bench.specs.Starts.{AreReady};
ghost use Rattle.lt_arch.specs.declared.pace.Pace.TheVariants.{Lossy};
ghost use Rattle.lt_arch.specs.Paced.{allowed_of};
ghost use Rattle.lt_lead.specs.Paced.{KeepsPace};
ghost use Rattle.lt_load_fit.specs.Fits.{HasWindowBy};
ghost use Rattle.lt_load.specs.Plan.{IsLoaded};
ghost use Rattle.lt_run.specs.Printed.{ReplaysLoaded, TakesSchedule, set_up};

use crate::fault::{of_lossy, of_play};
use crate::printed::name_outputs;
use crate::{Printed, RunFault};
use lt_base::{Inputs, Or};
use lt_config::Pace;
use lt_front::Checked;
use lt_io::{Fabric, Files};
use lt_load::{Loaded, main_of};
use lt_machine::Machine;
use lt_net::Replayed;
use lt_net_lossy::replay_lossy;
use lt_net_start::{NetPlan, copies};
use lt_norm::Flat;
use std::alloc::Global;
use std::mem::forget;

/// Has the nodes of a loaded program take the events of a schedule file, row by row, over a fabric that has no channel yet. There is a
/// machine for each node, of its part, which makes a step for each instant that the node executes.
///
/// The file is refused at its first row or event that is refused. What is kept besides the cells does not grow with the schedule.
pub fn replay<F: Files, W: Fabric, M: Machine>(
    alloc: Global,
    loaded: &Loaded,
    files: &mut F,
    schedule: &str,
    fabric: &mut W,
    machines: Vec<M>,
) -> Result<Printed<M>, Or<RunFault>>
    requires count { MayFail (F.state files.old).faults }
    requires link_count { MayFail (W.state fabric.old).faults }
    requires empty { (W.state fabric.old).kinds ≡ [] }
    requires machines { AreReady M.Machine loaded.now.layout (length loaded.now.inputs.rows) machines.items }
    ensures { ReplaysLoaded F.state W.state M.Machine loaded.now schedule.now files.old files.new fabric.old fabric.new result }
{
    let setup = copies(&loaded.layout, &loaded.shape, &loaded.timing)?;
    replay_setup(
        alloc,
        &loaded.checked,
        loaded.pace,
        setup,
        &loaded.inputs,
        files,
        schedule,
        fabric,
        machines,
    )
}

// A program along a schedule, with its setup, which is given away.
fn replay_setup<F: Files, W: Fabric, M: Machine>(
    alloc: Global,
    checked: &Checked,
    pace: Pace,
    setup: NetPlan,
    inputs: &Inputs,
    files: &mut F,
    schedule: &str,
    fabric: &mut W,
    machines: Vec<M>,
) -> Result<Printed<M>, Or<RunFault>>
    requires loaded { IsLoaded (set_up checked.now pace setup inputs.now) }
    requires count { MayFail (F.state files.old).faults }
    requires link_count { MayFail (W.state fabric.old).faults }
    requires empty { (W.state fabric.old).kinds ≡ [] }
    requires machines { AreReady M.Machine setup.layout (length inputs.now.rows) machines.items }
    ensures { ReplaysLoaded F.state W.state M.Machine (set_up checked.now pace setup inputs.now) schedule.now files.old files.new fabric.old fabric.new result }
{
    checked.program.invariant_holds();
    let width = width_of(&checked.flat);
    let replayed = take(
        alloc, pace, setup, inputs, width, files, schedule, fabric, machines,
    )?;
    Ok(name_outputs(alloc, main_of(&checked.program), replayed)?)
}

// What the schedule comes to.
fn take<F: Files, W: Fabric, M: Machine>(
    alloc: Global,
    pace: Pace,
    setup: NetPlan,
    inputs: &Inputs,
    width: u32,
    files: &mut F,
    schedule: &str,
    fabric: &mut W,
    machines: Vec<M>,
) -> Result<Replayed<M>, Or<RunFault>>
    requires count { MayFail (F.state files.old).faults }
    requires link_count { MayFail (W.state fabric.old).faults }
    requires empty { (W.state fabric.old).kinds ≡ [] }
    requires placed { (f : Originated) × IsPlaced f setup.layout × HasCodeRoom f.func × RowsFit f.func inputs.now.rows }
    requires paced { KeepsPace setup.layout setup.shape setup.timing pace }
    requires accepted { Accepts setup.timing }
    requires windowed { HasWindowBy pace setup.timing }
    requires timed { length setup.timing.nodes ≡ length setup.layout.names }
    requires few { length setup.layout.names ≤ 32 }
    requires width { inputs.now.width ≡ width }
    requires wide { HasRowValues width inputs.now.rows }
    requires machines { AreReady M.Machine setup.layout (length inputs.now.rows) machines.items }
    ensures { TakesSchedule F.state W.state M.Machine pace setup inputs.now schedule.now files.old files.new fabric.old fabric.new result }
{
    match pace {
        Pace::Lossy(losses) => take_lossy(
            alloc, losses, setup, inputs, width, files, schedule, fabric, machines,
        ),
        Pace::Plain | Pace::Leader(_) => take_plain(
            alloc, pace, setup, inputs, width, files, schedule, fabric, machines,
        ),
    }
}

// The same where links lose nothing.
fn take_plain<F: Files, W: Fabric, M: Machine>(
    alloc: Global,
    pace: Pace,
    setup: NetPlan,
    inputs: &Inputs,
    width: u32,
    files: &mut F,
    schedule: &str,
    fabric: &mut W,
    machines: Vec<M>,
) -> Result<Replayed<M>, Or<RunFault>>
    requires lossless { allowed_of pace ≡ None }
    requires count { MayFail (F.state files.old).faults }
    requires link_count { MayFail (W.state fabric.old).faults }
    requires empty { (W.state fabric.old).kinds ≡ [] }
    requires placed { (f : Originated) × IsPlaced f setup.layout × HasCodeRoom f.func × RowsFit f.func inputs.now.rows }
    requires paced { KeepsPace setup.layout setup.shape setup.timing pace }
    requires accepted { Accepts setup.timing }
    requires timed { length setup.timing.nodes ≡ length setup.layout.names }
    requires few { length setup.layout.names ≤ 32 }
    requires width { inputs.now.width ≡ width }
    requires wide { HasRowValues width inputs.now.rows }
    requires machines { AreReady M.Machine setup.layout (length inputs.now.rows) machines.items }
    ensures { TakesSchedule F.state W.state M.Machine pace setup inputs.now schedule.now files.old files.new fabric.old fabric.new result }
{
    match lt_net_replay::replay(
        alloc, files, schedule, fabric, setup, inputs, width, machines,
    ) {
        Ok(replayed) => Ok(replayed),
        Err(fault) => Err(fault.map(of_play)),
    }
}

// The same over links that lose messages, of which so many may be lost in a row.
fn take_lossy<F: Files, W: Fabric, M: Machine>(
    alloc: Global,
    losses: u64,
    setup: NetPlan,
    inputs: &Inputs,
    width: u32,
    files: &mut F,
    schedule: &str,
    fabric: &mut W,
    machines: Vec<M>,
) -> Result<Replayed<M>, Or<RunFault>>
    requires count { MayFail (F.state files.old).faults }
    requires link_count { MayFail (W.state fabric.old).faults }
    requires empty { (W.state fabric.old).kinds ≡ [] }
    requires placed { (f : Originated) × IsPlaced f setup.layout × HasCodeRoom f.func × RowsFit f.func inputs.now.rows }
    requires paced { KeepsPace setup.layout setup.shape setup.timing (Lossy losses) }
    requires windowed { HasWindowBy (Lossy losses) setup.timing }
    requires timed { length setup.timing.nodes ≡ length setup.layout.names }
    requires few { length setup.layout.names ≤ 32 }
    requires width { inputs.now.width ≡ width }
    requires wide { HasRowValues width inputs.now.rows }
    requires machines { AreReady M.Machine setup.layout (length inputs.now.rows) machines.items }
    ensures { TakesSchedule F.state W.state M.Machine (Lossy losses) setup inputs.now schedule.now files.old files.new fabric.old fabric.new result }
{
    match replay_lossy(
        alloc, files, schedule, fabric, setup, losses, inputs, width, machines,
    ) {
        Ok(replayed) => Ok(replayed),
        Err(fault) => Err(fault.map(of_lossy)),
    }
}

// The number of inputs of a flat function.
pub(crate) fn width_of(flat: &Flat) -> u32
    ensures { result ≡ flat.now.func.n_in }
{
    flat.func.n_in
}

/// What `replay` does, of a loaded program that is given away: nothing of it is copied.
pub(crate) fn replay_given<F: Files, W: Fabric, M: Machine>(
    alloc: Global,
    loaded: Loaded,
    files: &mut F,
    schedule: &str,
    fabric: &mut W,
    machines: Vec<M>,
) -> Result<Printed<M>, Or<RunFault>>
    requires count { MayFail (F.state files.old).faults }
    requires link_count { MayFail (W.state fabric.old).faults }
    requires empty { (W.state fabric.old).kinds ≡ [] }
    requires machines { AreReady M.Machine loaded.layout (length loaded.inputs.rows) machines.items }
    ensures { ReplaysLoaded F.state W.state M.Machine loaded schedule.now files.old files.new fabric.old fabric.new result }
{
    loaded.invariant_holds();
    let Loaded {
        checked,
        layout,
        shape,
        timing,
        inputs,
        pace,
    } = loaded;
    let setup = NetPlan {
        layout,
        shape,
        timing,
    };
    let printed = replay_setup(
        alloc, &checked, pace, setup, &inputs, files, schedule, fabric, machines,
    );
    // The call is nearly over: to take a large tree and its program apart would be a fifth of its time.
    forget(checked);
    printed
}
