// A node with periods from 9 to 11 beside one with periods from 20 to 22.

use crate::fixtures::{quick, two_nodes};
use crate::shown::show_value;
use lt_arch::{NodeTime, Protocol};
use lt_base::Memory;
use lt_timing::{accepts, bound, cycle, least};
use std::alloc::Global;

const SLOW: NodeTime = NodeTime {
    tmin: 20,
    tmax: 22,
    send: 2,
    execute: 1,
};

/// Countdowns that are accepted, and the least of each node.
pub fn show_accepted(alloc: Global) -> Result<String, Memory> {
    let timing = two_nodes(alloc, quick(3), SLOW, Protocol::TimeBased)?;
    show_value(
        alloc,
        (accepts(&timing), least(&timing, 0), least(&timing, 1)),
    )
}

/// The cycles of both nodes, and their bounds.
pub fn cycles_and_bounds(alloc: Global) -> Result<String, Memory> {
    let timing = two_nodes(alloc, quick(3), SLOW, Protocol::TimeBased)?;
    let cycles = (cycle(&timing, 0), cycle(&timing, 1));
    let bounds = (bound(&timing, 0, 1000), bound(&timing, 1, 1000));
    show_value(alloc, (cycles, bounds))
}

/// A countdown that is too short.
pub fn too_short(alloc: Global) -> Result<String, Memory> {
    let timing = two_nodes(alloc, quick(2), SLOW, Protocol::TimeBased)?;
    show_value(alloc, accepts(&timing))
}

/// A cycle and a bound of the other protocol.
pub fn other_protocol(alloc: Global) -> Result<String, Memory> {
    let timing = two_nodes(alloc, quick(3), SLOW, Protocol::BackPressure)?;
    show_value(alloc, (cycle(&timing, 0), bound(&timing, 1, 1000)))
}
