// Whether the list of the large input is short enough.
ghost use Rattle.std.specs.Prelude.{IfOk};
ghost use Rattle.lt_big.specs.Stage.{TellsFew};

use lt_base::Memory;
use lt_big_texts::horizon;
use lt_load::Loaded;
use lt_net_replay::laws::networks_are_sound;
use lt_sim::ends_in_time;
use std::alloc::Global;

/// Whether the list of events that is drawn for what was loaded has no more events than a schedule may have.
pub(crate) fn has_few_events(alloc: Global, loaded: &Loaded, instants: u32) -> Result<bool, Memory>
    ensures { IfOk result (TellsFew instants loaded.now) }
{
    loaded.invariant_holds();
    networks_are_sound();
    ends_in_time(
        alloc,
        &loaded.shape,
        &loaded.timing,
        loaded.inputs.rows(),
        instants as u64,
        horizon(instants),
    )
}
