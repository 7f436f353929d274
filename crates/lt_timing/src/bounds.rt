// Cycles and bounds.
ghost use Rattle.std.specs.Prelude.{◌≡◌, ◌≤◌, ◌<◌, ◌+◌, ◌-◌, ◌*◌, ◌/◌, ◌^◌, length};
ghost use Rattle.lt_timing.specs.Bounds.{cycle_of, bound_of, time_based_cycle, back_pressure_cycle, back_pressure_bound, instants_by};

use lt_arch::{Protocol, Timing};

/// The cycle of a node, in ticks: within it the node executes one more instant, while inputs last.
#[tactic(auto, using(crate::proofs::Cycles::cycle_some))]
pub fn cycle(timing: &Timing, node: u32) -> u128
    requires { node < length timing.now.nodes }
    ensures value { result ≡ cycle_of timing.now node }
    ensures some { 1 ≤ result }
{
    match timing.protocol {
        Protocol::BackPressure => back_pressure_cycle(timing) as u128,
        Protocol::TimeBased => {
            let activations = timing.send_of(node) + timing.execute_of(node);
            activations as u128 * timing.tmax_of(node) as u128
        }
    }
}

/// The cycle of every node under back-pressure, in ticks, whatever the protocol is.
pub fn back_pressure_cycle(timing: &Timing) -> u64
    ensures { result ≡ back_pressure_cycle timing.now }
{
    2 * (timing.slowest() + timing.most())
}

/// How many instants a node has executed at least where a list ends at this horizon, while inputs last.
pub fn bound(timing: &Timing, node: u32, h: u64) -> u64
    requires { node < length timing.now.nodes }
    ensures { result ≡ bound_of timing.now node h }
{
    match timing.protocol {
        Protocol::BackPressure => back_pressure_bound(timing, node, h),
        Protocol::TimeBased => {
            let first = timing.tmax_of(node);
            if h < first {
                0
            } else {
                instants_by(first, cycle(timing, node), h)
            }
        }
    }
}

/// The bound of a node under back-pressure, in instants, whatever the protocol is.
pub fn back_pressure_bound(timing: &Timing, node: u32, h: u64) -> u64
    requires { node < length timing.now.nodes }
    ensures { result ≡ back_pressure_bound timing.now node h }
{
    if h < timing.tmax_of(node) {
        return 0;
    }
    let slowest = timing.slowest();
    if h < slowest {
        return 1;
    }
    instants_by(slowest, back_pressure_cycle(timing) as u128, h)
}

/// One instant by a time, and one more for each whole cycle from then to the horizon.
pub fn instants_by(first: u64, cycle: u128, horizon: u64) -> u64
    requires some { 1 ≤ first }
    requires reached { first ≤ horizon }
    requires cycle { 1 ≤ cycle }
    ensures { result ≡ instants_by first cycle horizon }
{
    ((horizon - first) as u128 / cycle) as u64 + 1
}
