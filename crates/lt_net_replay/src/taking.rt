// What is taken from a net at the end of a schedule.
ghost use Rattle.std.specs.Prelude.{◌≡◌, ℕ, Some, IfOk};
ghost use Rattle.lt_net_replay.specs.Replays.{ReplayIsTaken};

use lt_arch::Controller;
use lt_base::Memory;
use lt_machine::Machine;
use lt_net::{Net, Replayed};
use std::alloc::Global;

/// The cells, the horizon, the machines and the layout of a net that took an end.
pub fn take<C: Controller, M: Machine>(alloc: Global, net: Net<C, M>) -> Result<Replayed<M>, Memory>
    requires { (h : ℕ) × (net.bench.watch.horizon ≡ Some h) }
    ensures { IfOk result (ReplayIsTaken net.bench) }
{
    match net.reached() {
        Some(horizon) => {
            let replayed = net.into_replayed(alloc, horizon)?;
            Ok(replayed)
        }
        None => unreachable!(),
    }
}
