// What was loaded, along the list of events that is drawn for it.
ghost use Rattle.std.specs.Prelude.{◌≡◌, ◌<◌, ◌≤◌, ◌-◌, ◌^◌, [], length};
ghost use Rattle.lt_io.specs.Counts.{MayFail};
ghost use Rattle.lt_io.specs.FabricState.{OpensOnce};
ghost use Rattle.lt_arch.specs.declared.pace.Pace.TheVariants.{Plain};
ghost use Rattle.lt_rows.specs.Limits.{most_events};
ghost use Rattle.lt_big.specs.Big.{events_of};
ghost use Rattle.lt_big.specs.Stage.{AnsweredAlone, along_list};

use lt_base::Or;
use lt_big_texts::horizon;
use lt_evaluate::Outputs;
use lt_io::{Fabric, LinkErr};
use lt_load::{CommandFault, Loaded};
use lt_net_replay::laws::networks_are_sound;
use lt_run::run_drawn;
use std::alloc::Global;

/// Runs what was loaded along the list, up to the horizon of so many instants and with their number as the seed. Each event is taken
/// as it is drawn.
pub(crate) fn play<W: Fabric>(
    alloc: Global,
    fabric: &mut W,
    loaded: &Loaded,
    instants: u32,
) -> Result<Outputs, Or<CommandFault>>
    requires few { length (events_of instants loaded.now.shape loaded.now.timing (length loaded.now.inputs.rows)) ≤ most_events }
    requires plain { loaded.now.pace ≡ Plain }
    requires count { MayFail (W.state fabric.old).faults }
    requires empty { (W.state fabric.old).kinds ≡ [] }
    ensures answered { AnsweredAlone (along_list instants (W.state fabric.new) loaded.now) (W.state fabric.old) (W.state fabric.new) result }
    ensures opens { OpensOnce (W.state fabric.old) (W.state fabric.new) result }
{
    loaded.invariant_holds();
    networks_are_sound();
    match run_drawn(alloc, fabric, loaded, instants as u64, horizon(instants)) {
        Ok(outputs) => Ok(outputs),
        Err(LinkErr::Failed) => Err(Or::Fault(CommandFault::Link)),
        Err(LinkErr::Memory) => Err(Or::Memory),
    }
}
