// A run of the large input.
ghost use Rattle.std.specs.Prelude.{◌≡◌, ◌<◌, ◌-◌, ◌^◌, []};
ghost use Rattle.lt_io.specs.Counts.{MayFail};
ghost use Rattle.lt_io.specs.FabricState.{OpensOnce};
ghost use Rattle.lt_arch.specs.declared.pace.Pace.TheVariants.{Plain};
ghost use Rattle.lt_big.specs.Big.{LeavesRefused, big_verdict};
ghost use Rattle.lt_big.specs.Stage.{AnsweredAlone, LeavesUndrawn, along_list};

use crate::counting::has_few_events;
use crate::large::load;
use crate::playing::play;
use lt_base::Or;
use lt_evaluate::Outputs;
use lt_io::Fabric;
use lt_load::{CommandFault, Loaded};
use lt_load_fit::too_many_events;
use std::alloc::Global;

/// Runs the large input of so many instants, over a fabric that has no channel yet: its program is loaded with its setup and its
/// inputs, a list of events is drawn for it from the number of instants as the seed up to the horizon, and each output is given with a
/// cell for each instant that its node executes along this list.
///
/// Each event is taken as it is drawn. All files are in memory, and none fails: beside want of memory and a failed call on the fabric,
/// which counts there, the answer is what the texts determine.
pub fn big<W: Fabric>(
    alloc: Global,
    fabric: &mut W,
    instants: u32,
) -> Result<Outputs, Or<CommandFault>>
    requires count { MayFail (W.state fabric.old).faults }
    requires empty { (W.state fabric.old).kinds ≡ [] }
    ensures answered { AnsweredAlone (big_verdict instants (W.state fabric.new)) (W.state fabric.old) (W.state fabric.new) result }
    ensures opens { OpensOnce (W.state fabric.old) (W.state fabric.new) result }
    ensures untouched { LeavesRefused instants (W.state fabric.old) (W.state fabric.new) }
{
    let loaded = load(alloc, instants)?;
    let outputs = run(alloc, fabric, &loaded, instants);
    drop(loaded);
    outputs
}

// Runs what was loaded along the list that is drawn for it, where that has no more events than a schedule may have.
fn run<W: Fabric>(
    alloc: Global,
    fabric: &mut W,
    loaded: &Loaded,
    instants: u32,
) -> Result<Outputs, Or<CommandFault>>
    requires count { MayFail (W.state fabric.old).faults }
    requires empty { (W.state fabric.old).kinds ≡ [] }
    requires plain { loaded.now.pace ≡ Plain }
    ensures answered { AnsweredAlone (along_list instants (W.state fabric.new) loaded.now) (W.state fabric.old) (W.state fabric.new) result }
    ensures opens { OpensOnce (W.state fabric.old) (W.state fabric.new) result }
    ensures untouched { LeavesUndrawn instants loaded.now (W.state fabric.old) (W.state fabric.new) }
{
    let few = has_few_events(alloc, loaded, instants)?;
    if few {
        play(alloc, fabric, loaded, instants)
    } else {
        Err(Or::Fault(too_many_events()))
    }
}
