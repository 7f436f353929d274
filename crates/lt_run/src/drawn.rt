// A loaded program along a list of events that is drawn for it.
ghost use Rattle.std.specs.Prelude.{◌≡◌, ◌<◌, ◌≤◌, ◌-◌, ◌^◌, [], length};
ghost use Rattle.lt_io.specs.Counts.{MayFail};
ghost use Rattle.lt_arch.specs.declared.limits.TheConstants.{GREATEST_TIME};
ghost use Rattle.lt_arch.specs.declared.pace.Pace.TheVariants.{Plain};
ghost use Rattle.lt_load.specs.Plan.{IsLoaded};
ghost use Rattle.lt_net_bench.specs.Starts.{AreReady};
ghost use Rattle.lt_rows.specs.Limits.{most_events};
ghost use Rattle.lt_run.specs.Drawn.{HasRunList, HasPrintedList, plainly};
ghost use Rattle.lt_sim.specs.Drawn.{drawn};

use crate::Printed;
use crate::coded::code_machines;
use crate::printed::name_outputs;
use crate::replaying::width_of;
use lt_arch::{Shape, Timing};
use lt_base::Inputs;
use lt_evaluate::Outputs;
use lt_front::Checked;
use lt_io::{Fabric, LinkErr};
use lt_load::{Loaded, main_of};
use lt_machine::{ImportedOperators, Machine};
use lt_net_drawn::replay_drawn;
use lt_place::Layout;
use std::alloc::Global;

/// Runs what was loaded along the list of events that a seed draws for it up to a horizon in ticks, as `run_loaded` does along a file of
/// the list. Each event is taken as it is drawn.
///
/// An error is a failed call on the fabric, or want of memory.
pub fn run_drawn<W: Fabric>(
    alloc: Global,
    fabric: &mut W,
    loaded: &Loaded,
    seed: u64,
    horizon: u64,
) -> Result<Outputs, LinkErr>
    requires plain { loaded.now.pace ≡ Plain }
    requires horizon { horizon ≤ GREATEST_TIME }
    requires few { length (drawn loaded.now.shape loaded.now.timing (length loaded.now.inputs.rows) seed horizon) ≤ most_events }
    requires count { MayFail (W.state fabric.old).faults }
    requires empty { (W.state fabric.old).kinds ≡ [] }
    ensures { HasRunList loaded.now (drawn loaded.now.shape loaded.now.timing (length loaded.now.inputs.rows) seed horizon) (W.state fabric.old) (W.state fabric.new) result }
{
    loaded.invariant_holds();
    let machines = code_machines(alloc, loaded, ImportedOperators)?;
    let printed = print_drawn(
        alloc,
        fabric,
        &loaded.checked,
        &loaded.layout,
        &loaded.shape,
        &loaded.timing,
        &loaded.inputs,
        machines,
        seed,
        horizon,
    )?;
    Ok(printed.outputs())
}

// A program on its nodes by these machines, which are given back as they are after their last steps.
fn print_drawn<W: Fabric, M: Machine>(
    alloc: Global,
    fabric: &mut W,
    checked: &Checked,
    layout: &Layout,
    shape: &Shape,
    timing: &Timing,
    inputs: &Inputs,
    machines: Vec<M>,
    seed: u64,
    horizon: u64,
) -> Result<Printed<M>, LinkErr>
    requires loaded { IsLoaded (plainly checked.now layout.now shape.now timing.now inputs.now) }
    requires horizon { horizon ≤ GREATEST_TIME }
    requires few { length (drawn shape.now timing.now (length inputs.now.rows) seed horizon) ≤ most_events }
    requires count { MayFail (W.state fabric.old).faults }
    requires empty { (W.state fabric.old).kinds ≡ [] }
    requires machines { AreReady M.Machine layout.now (length inputs.now.rows) machines.items }
    ensures { HasPrintedList (plainly checked.now layout.now shape.now timing.now inputs.now)
        (drawn shape.now timing.now (length inputs.now.rows) seed horizon) (W.state fabric.old) (W.state fabric.new) result }
{
    checked.program.invariant_holds();
    let width = width_of(&checked.flat);
    let replayed = replay_drawn(
        alloc, fabric, layout, shape, timing, inputs, width, machines, seed, horizon,
    )?;
    Ok(name_outputs(alloc, main_of(&checked.program), replayed)?)
}
