// A timing of two nodes.
ghost use Rattle.std.specs.Prelude.{◌≡◌, ◌≤◌, length, IfOk};

use lt_arch::{NodeTime, PairTime, Protocol, Timing};
use lt_base::{List, Memory};
use std::alloc::Global;

/// A node with periods from 9 to 11.
pub fn quick(send: u64) -> NodeTime
    requires { (1 ≤ send) × (send ≤ 1000) }
{
    NodeTime {
        tmin: 9,
        tmax: 11,
        send,
        execute: 4,
    }
}

/// The timing of these two nodes, with delays from 1 to 4 both ways.
pub fn two_nodes(
    alloc: Global,
    a: NodeTime,
    b: NodeTime,
    protocol: Protocol,
) -> Result<Timing, Memory>
    ensures { IfOk result (λ timing. length timing.nodes ≡ 2) }
{
    let forth = PairTime {
        from: 0,
        to: 1,
        dmin: 1,
        dmax: 4,
    };
    let back = PairTime {
        from: 1,
        to: 0,
        dmin: 1,
        dmax: 4,
    };
    Ok(Timing {
        nodes: List::of(vec![in alloc; a, b]?),
        pairs: List::of(vec![in alloc; forth, back]?),
        most: 4,
        protocol,
    })
}
