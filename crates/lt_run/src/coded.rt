// A loaded program along a schedule, by machines of step code.
ghost use Rattle.std.specs.Prelude.{◌≡◌, [], length, IfOk};
ghost use Rattle.lt_io.specs.Counts.{MayFail};
ghost use Rattle.lt_net_bench.specs.Starts.{AreReady};
ghost use Rattle.lt_run.specs.Coded.{ReplaysCode};

use crate::replaying::{replay, replay_given};
use crate::{Printed, RunFault};
use lt_base::{Memory, Or};
use lt_compile::compile_nodes;
use lt_io::{Fabric, Files};
use lt_load::Loaded;
use lt_machine::{Machine, Operators, StepMachine};
use std::alloc::Global;

// A machine of step code for each node.
pub(crate) fn code_machines<G: Operators + Copy>(
    alloc: Global,
    loaded: &Loaded,
    operators: G,
) -> Result<Vec<StepMachine<G>>, Memory>
    ensures { IfOk result (λ machines. AreReady ⟦<StepMachine<G> as Machine>⟧ loaded.now.layout (length loaded.now.inputs.rows) machines.items) }
{
    loaded.invariant_holds();
    compile_nodes(alloc, &loaded.layout, operators, loaded.inputs.rows())
}

/// Has the nodes of a loaded program take the events of a schedule file, as `replay` does, each by a machine of its part's step code with
/// these imported operators. The machines are given back as they are after their last steps.
pub fn replay_code<F: Files, W: Fabric, G: Operators + Copy>(
    alloc: Global,
    loaded: &Loaded,
    files: &mut F,
    schedule: &str,
    fabric: &mut W,
    operators: G,
) -> Result<Printed<StepMachine<G>>, Or<RunFault>>
    requires count { MayFail (F.state files.old).faults }
    requires link_count { MayFail (W.state fabric.old).faults }
    requires empty { (W.state fabric.old).kinds ≡ [] }
    ensures { ReplaysCode F.state W.state ⟦<StepMachine<G> as Machine>⟧ loaded.now schedule.now files.old files.new fabric.old fabric.new result }
{
    let machines = code_machines(alloc, loaded, operators)?;
    replay(alloc, loaded, files, schedule, fabric, machines)
}

/// What `replay_code` does, of a loaded program that is given away: nothing of it is copied.
pub fn replay_whole<F: Files, W: Fabric, G: Operators + Copy>(
    alloc: Global,
    loaded: Loaded,
    files: &mut F,
    schedule: &str,
    fabric: &mut W,
    operators: G,
) -> Result<Printed<StepMachine<G>>, Or<RunFault>>
    requires count { MayFail (F.state files.old).faults }
    requires link_count { MayFail (W.state fabric.old).faults }
    requires empty { (W.state fabric.old).kinds ≡ [] }
    ensures { ReplaysCode F.state W.state ⟦<StepMachine<G> as Machine>⟧ loaded schedule.now files.old files.new fabric.old fabric.new result }
{
    match code_machines(alloc, &loaded, operators) {
        Ok(machines) => replay_machines(alloc, loaded, files, schedule, fabric, machines),
        Err(Memory) => {
            drop(loaded);
            Err(Or::Memory)
        }
    }
}

// The same by these machines.
fn replay_machines<F: Files, W: Fabric, G: Operators>(
    alloc: Global,
    loaded: Loaded,
    files: &mut F,
    schedule: &str,
    fabric: &mut W,
    machines: Vec<StepMachine<G>>,
) -> Result<Printed<StepMachine<G>>, Or<RunFault>>
    requires machines { AreReady ⟦<StepMachine<G> as Machine>⟧ loaded.layout (length loaded.inputs.rows) machines.items }
    requires count { MayFail (F.state files.old).faults }
    requires link_count { MayFail (W.state fabric.old).faults }
    requires empty { (W.state fabric.old).kinds ≡ [] }
    ensures { ReplaysCode F.state W.state ⟦<StepMachine<G> as Machine>⟧ loaded schedule.now files.old files.new fabric.old fabric.new result }
{
    replay_given(alloc, loaded, files, schedule, fabric, machines)
}
