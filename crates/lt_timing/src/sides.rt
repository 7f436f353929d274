// The sides of the inequalities.
ghost use Rattle.std.specs.Prelude.{◌≡◌, ℕ, ◌≤◌, ◌<◌, ◌*◌, length};
ghost use Rattle.lt_arch.specs.Readers.{send_of, execute_of};
ghost use Rattle.lt_timing.specs.Accepts.{dmax_to, dmin_to, answer_time, gather_time, least_cycle, least_first_send, left_side, right_side};

use crate::Which;
use lt_arch::Timing;
use std::cmp::{max, min};

// The two sides of an inequality at a node, in ticks.
pub fn sides(which: Which, timing: &Timing, j: u32) -> (u128, u128)
    requires node { j < length timing.now.nodes }
    requires several { 2 ≤ length timing.now.nodes }
    ensures left { result.0 ≡ left_side which timing.now (send_of timing.now) (execute_of timing.now) j }
    ensures right { result.1 ≡ right_side which timing.now (execute_of timing.now) j }
{
    match which {
        Which::Execute => (
            periods(timing.execute_of(j), timing.tmin_of(j)),
            gather_time(timing, j) as u128,
        ),
        Which::Send => (
            least_cycle(timing) + dmin_to(timing, j) as u128,
            answer_time(timing, j) as u128 + periods(timing.execute_of(j), timing.tmax_of(j)),
        ),
        Which::First => (
            least_first_send(timing) + dmin_to(timing, j) as u128,
            timing.tmax_of(j) as u128,
        ),
    }
}

// So many periods, in ticks.
pub fn periods(count: u64, period: u64) -> u128
    requires count { count ≤ 8000000000000000000 }
    requires period { period ≤ 1000000000 }
    ensures value { result ≡ count * period }
    ensures range { result ≤ 8000000000000000000000000000 }
{
    count as u128 * period as u128
}

fn dmax_to(timing: &Timing, j: u32) -> u64
    requires { j < length timing.now.nodes }
    ensures value { result ≡ dmax_to timing.now j }
    ensures range { result ≤ 1000000000 }
{
    let mut greatest = 0;
    for i in 0..timing.node_count() {
        if i != j {
            greatest = max(greatest, timing.dmax_of(i, j));
        }
    }
    greatest
}

pub fn dmin_to(timing: &Timing, j: u32) -> u64
    requires node { j < length timing.now.nodes }
    requires several { 2 ≤ length timing.now.nodes }
    ensures value { result ≡ dmin_to timing.now j }
    ensures range { result ≤ 1000000000 }
{
    let other = if j == 0 { 1 } else { 0 };
    let mut least = timing.dmin_of(other, j);
    for i in 0..timing.node_count() {
        if i != j {
            least = min(least, timing.dmin_of(i, j));
        }
    }
    least
}

pub fn answer_time(timing: &Timing, i: u32) -> u64
    requires { i < length timing.now.nodes }
    ensures value { result ≡ answer_time timing.now i }
    ensures range { result ≤ 2000000000 }
{
    timing.tmax_of(i) + dmax_to(timing, i)
}

pub fn gather_time(timing: &Timing, j: u32) -> u64
    requires { j < length timing.now.nodes }
    ensures value { result ≡ gather_time timing.now j }
    ensures range { result ≤ 3000000000 }
{
    let mut greatest = 0;
    for i in 0..timing.node_count() {
        if i != j {
            greatest = max(greatest, answer_time(timing, i) + timing.dmax_of(i, j));
        }
    }
    greatest
}

fn least_cycle(timing: &Timing) -> u128
    requires { 1 ≤ length timing.now.nodes }
    ensures value { result ≡ least_cycle timing.now (send_of timing.now) (execute_of timing.now) }
    ensures range { result ≤ 8000000000000000000000000000 }
{
    let mut least = periods(timing.send_of(0) + timing.execute_of(0), timing.tmin_of(0));
    for i in 0..timing.node_count() {
        let cycle = periods(timing.send_of(i) + timing.execute_of(i), timing.tmin_of(i));
        least = min(least, cycle);
    }
    least
}

fn least_first_send(timing: &Timing) -> u128
    requires { 1 ≤ length timing.now.nodes }
    ensures value { result ≡ least_first_send timing.now (send_of timing.now) }
    ensures range { result ≤ 8000000000000000000000000000 }
{
    let mut least = periods(timing.send_of(0), timing.tmin_of(0));
    for i in 0..timing.node_count() {
        least = min(least, periods(timing.send_of(i), timing.tmin_of(i)));
    }
    least
}
