// The cycle and the bound of the time-based protocol with the least countdowns, whatever a setup's own protocol is.
ghost use Rattle.std.specs.Prelude.{◌≡◌, ◌≤◌, ◌<◌, length};
ghost use Rattle.lt_text_lines.specs.PlanNumbers.{node_least_cycle, least_bound};

use lt_arch::Timing;
use lt_timing::{instants_by, least};

/// The cycle of a node under the time-based protocol, in ticks.
#[tactic(auto, using(crate::proofs::PlanSome::least_some))]
pub fn least_cycle(timing: &Timing, node: u32) -> u128
    requires { node < length timing.now.nodes }
    ensures value { result ≡ node_least_cycle timing.now node }
    ensures some { 1 ≤ result }
{
    let (send, execute) = least(timing, node);
    (send + execute) as u128 * timing.tmax_of(node) as u128
}

/// The bound of a node under the time-based protocol, in instants.
pub fn least_bound(timing: &Timing, node: u32, horizon: u64) -> u64
    requires { node < length timing.now.nodes }
    ensures { result ≡ least_bound timing.now node horizon }
{
    let first = timing.tmax_of(node);
    if horizon < first {
        return 0;
    }
    instants_by(first, least_cycle(timing, node), horizon)
}
