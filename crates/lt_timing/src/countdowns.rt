// The least countdowns.
ghost use Rattle.std.specs.Prelude.{◌≡◌, ◌≤◌, ◌<◌, ◌+◌, length};
ghost use Rattle.lt_timing.specs.Least.{least_above, execute_among, cycle_need, first_send_need, least_send, least_execute};
ghost use Rattle.lt_arch.specs.declared.limits.TheConstants.{GREATEST_COUNTDOWN};

use crate::sides::{answer_time, dmin_to, gather_time};
use lt_arch::Timing;
use std::cmp::max;

/// The least send and the least execute of a node, in activations, whatever the protocol is: with the least
/// executes and then the least sends at every node the bounds are accepted as a time-based setup. 1 and 1
/// where there is one node.
pub fn least(timing: &Timing, node: u32) -> (u64, u64)
    requires { node < length timing.now.nodes }
    ensures send { result.0 ≡ least_send timing.now node }
    ensures execute { result.1 ≡ least_execute timing.now node }
    ensures send_range { result.0 ≤ GREATEST_COUNTDOWN }
    ensures execute_range { result.1 ≤ GREATEST_COUNTDOWN }
{
    if timing.node_count() < 2 {
        return (1, 1);
    }
    let tmin = timing.tmin_of(node);
    let execute = least_execute(timing, node);
    let first = least_above(first_send_need(timing), tmin);
    let cycle = least_above(cycle_need(timing), tmin);
    (max(first, cycle.saturating_sub(execute)), execute)
}

// The least number whose product with b is above a.
fn least_above(a: u64, b: u64) -> u64
    requires a { a ≤ 3000000003000000000 }
    requires b { 1 ≤ b }
    ensures value { result ≡ least_above a b }
    ensures bound { result ≤ a + 1 }
{
    a / b + 1
}

fn least_execute(timing: &Timing, j: u32) -> u64
    requires { j < length timing.now.nodes }
    ensures value { result ≡ execute_among timing.now j }
    ensures range { result ≤ 3000000001 }
{
    least_above(gather_time(timing, j), timing.tmin_of(j))
}

fn cycle_need(timing: &Timing) -> u64
    requires { 2 ≤ length timing.now.nodes }
    ensures value { result ≡ cycle_need timing.now }
    ensures range { result ≤ 3000000003000000000 }
{
    let mut greatest = 0;
    for j in 0..timing.node_count() {
        let executed = answer_time(timing, j) + least_execute(timing, j) * timing.tmax_of(j);
        greatest = max(greatest, executed.saturating_sub(dmin_to(timing, j)));
    }
    greatest
}

fn first_send_need(timing: &Timing) -> u64
    requires { 2 ≤ length timing.now.nodes }
    ensures value { result ≡ first_send_need timing.now }
    ensures range { result ≤ 1000000000 }
{
    let mut greatest = 0;
    for j in 0..timing.node_count() {
        greatest = max(
            greatest,
            timing.tmax_of(j).saturating_sub(dmin_to(timing, j)),
        );
    }
    greatest
}
