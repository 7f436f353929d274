// A timing with narrower periods.
ghost use Rattle.std.specs.Prelude.{◌≡◌, ◌≤◌, ◌<◌, ◌+◌, ◌-◌, ◌*◌, ◌/◌, IfOk, length};
ghost use Rattle.lt_arch.specs.declared.limits.TheConstants.{GREATEST_BOUND};
ghost use Rattle.lt_arch.specs.Readers.{tmin_of, tmax_of, send_of, execute_of};
ghost use Rattle.lt_narrow.specs.Narrow.{trim, IsNarrowed, IsNarrowedTime, AreNarrowed};

use lt_arch::{NodeTime, Timing};
use lt_base::{List, Memory};
use std::alloc::Global;

/// The timing with each interval of periods narrowed to so many thousandths of its width, around its middle.
pub fn narrowed(alloc: Global, timing: &Timing, jitter: u64) -> Result<Timing, Memory>
    requires { jitter ≤ 1000 }
    ensures { IfOk result (IsNarrowed jitter timing.now) }
{
    let nodes = narrowed_times(alloc, timing, jitter)?;
    let pairs = timing.pairs.copy()?;
    Ok(Timing {
        nodes,
        pairs,
        most: timing.most,
        protocol: timing.protocol,
    })
}

// The times of all nodes.
fn narrowed_times(alloc: Global, timing: &Timing, jitter: u64) -> Result<List<NodeTime>, Memory>
    requires { jitter ≤ 1000 }
    ensures { IfOk result (AreNarrowed jitter timing.now (length timing.now.nodes)) }
{
    let mut times = List::new(alloc);
    for node in 0..timing.node_count() {
        times.push(narrowed_time(timing, node, jitter))?;
    }
    Ok(times)
}

// The times of one node.
fn narrowed_time(timing: &Timing, node: u32, jitter: u64) -> NodeTime
    requires node { node < length timing.now.nodes }
    requires jitter { jitter ≤ 1000 }
    ensures { IsNarrowedTime jitter timing.now node result }
{
    let time = timing.nodes[node as usize];
    let trim = trim(jitter, time.tmax - time.tmin);
    NodeTime {
        tmin: time.tmin + trim,
        tmax: time.tmax - trim,
        send: time.send,
        execute: time.execute,
    }
}

// What is taken off each end of an interval of this width.
fn trim(jitter: u64, width: u64) -> u64
    requires jitter { jitter ≤ 1000 }
    requires width { width ≤ GREATEST_BOUND }
    ensures value { result ≡ trim jitter width }
    ensures half { result + result ≤ width }
{
    width * (1000 - jitter) / 2000
}
