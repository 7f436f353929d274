// How many instants a node has executed at least, where a node leads.
ghost use Rattle.std.specs.Prelude.{◌≡◌, ◌≢◌, ◌≤◌, ◌<◌, length};
ghost use Rattle.lt_timing.specs.Bounds.{time_based_cycle};
ghost use Rattle.lt_lead.specs.Bounds.{first_sent_by, second_by, follower_bound, lead_bound_of};

use lt_arch::Timing;
use lt_timing::bound;

// By when the leader has sent its first message, in ticks.
fn first_sent_by(timing: &Timing, leader: u32) -> u128
    requires { leader < length timing.now.nodes }
    ensures value { result ≡ first_sent_by timing.now leader }
    ensures range { result ≤ 4000000000000000001000000000 }
{
    let activations = timing.send_of(leader) + 1;
    activations as u128 * timing.tmax_of(leader) as u128
}

// By when a node that follows has executed its second instant, in ticks.
fn second_by(timing: &Timing, leader: u32, node: u32) -> u128
    requires leader { leader < length timing.now.nodes }
    requires node { node < length timing.now.nodes }
    requires differ { leader ≢ node }
    ensures value { result ≡ second_by timing.now leader node }
    ensures some { 2 ≤ result }
{
    let delay = timing.dmax_of(leader, node) as u128;
    let activations = timing.execute_of(node) + 1;
    first_sent_by(timing, leader) + delay + activations as u128 * timing.tmax_of(node) as u128
}

fn lead_cycle(timing: &Timing, leader: u32) -> u128
    requires { leader < length timing.now.nodes }
    ensures value { result ≡ time_based_cycle timing.now leader }
    ensures some { 1 ≤ result }
{
    let activations = timing.send_of(leader) + timing.execute_of(leader);
    activations as u128 * timing.tmax_of(leader) as u128
}

fn follower_bound(timing: &Timing, leader: u32, node: u32, h: u64) -> u64
    requires leader { leader < length timing.now.nodes }
    requires node { node < length timing.now.nodes }
    requires differ { leader ≢ node }
    ensures { result ≡ follower_bound timing.now leader node h }
{
    if h < timing.tmax_of(node) {
        return 0;
    }
    let second = second_by(timing, leader, node);
    if (h as u128) < second {
        return 1;
    }
    ((h as u128 - second) / lead_cycle(timing, leader)) as u64 + 2
}

/// How many instants a node has executed at least where a list ends at this horizon, while inputs last, and the node `leader` paces
/// the rounds.
pub fn lead_bound(timing: &Timing, leader: u32, node: u32, h: u64) -> u64
    requires leader { leader < length timing.now.nodes }
    requires node { node < length timing.now.nodes }
    ensures { result ≡ lead_bound_of timing.now leader node h }
{
    if node == leader {
        bound(timing, node, h)
    } else {
        follower_bound(timing, leader, node, h)
    }
}
