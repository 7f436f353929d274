// What is taken from a net at the end of a schedule.
ghost use Rattle.std.specs.Prelude.{◌≡◌, ℕ, Some, Ok};
ghost use Rattle.lt_net_start.specs.Ends.{FinishesBy};
ghost use Rattle.lt_net_lossy.specs.LossyPlays.{IsTakenFrom};

use crate::LossyNet;
use lt_base::Or;
use lt_lossy::LossyOffence;
use lt_machine::Machine;
use lt_net::Replayed;
use lt_schedule::Halt;
use std::alloc::Global;

/// The cells, the horizon, the machines and the layout of a net that took an end.
pub(crate) fn take<M: Machine>(
    alloc: Global,
    net: LossyNet<M>,
) -> Result<Replayed<M>, Or<Halt<LossyOffence>>>
    requires { (h : ℕ) × (net.bench.watch.horizon ≡ Some h) }
    ensures { FinishesBy (IsTakenFrom net.bench) (Ok tt) result }
{
    match net.reached() {
        Some(horizon) => {
            let replayed = net.into_replayed(alloc, horizon)?;
            Ok(replayed)
        }
        None => unreachable!(),
    }
}
