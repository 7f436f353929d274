// Whether few enough messages of a channel are in transit.
ghost use Rattle.std.specs.Prelude.{ℕ, ◌≢◌, ◌<◌, ◌*◌, MatchResult, length};
ghost use Rattle.lt_lossy.specs.Window.{HasWindow, IsInWindow, IsFaultFrom, IsWindowFault};

use lt_arch::Timing;

/// The first pair of nodes, in order, whose greatest delay is not below the time that 64 activations of its first node take at least.
#[derive(Clone, Copy, Debug, PartialEq, Eq)]
pub struct WindowFault {
    /// The first node of the pair.
    pub node: u32,
    /// 64 of its least periods, in ticks.
    pub left: u128,
    /// The greatest delay of the pair, in ticks.
    pub right: u128,
}

// How many messages of a channel are in transit at most.
pub const ROOM: u64 = 64;

/// Whether at most 64 messages of each channel are in transit, where its sender sends one at each activation.
pub fn window(timing: &Timing) -> Result<(), WindowFault>
    ensures { MatchResult result (λ _. HasWindow timing.now) (IsWindowFault timing.now) }
{
    for node in 0..timing.node_count() {
        window_of(timing, node)?;
    }
    Ok(())
}

// The same of the channels from one node.
fn window_of(timing: &Timing, node: u32) -> Result<(), WindowFault>
    requires { node < length timing.now.nodes }
    ensures { MatchResult result (λ _. (j : ℕ) → j < length timing.now.nodes → node ≢ j → IsInWindow timing.now node j) (IsFaultFrom timing.now node) }
{
    let left = ROOM * timing.tmin_of(node);
    for other in 0..timing.node_count() {
        if other != node {
            let right = timing.dmax_of(node, other);
            if left <= right {
                return Err(WindowFault {
                    node,
                    left: u128::from(left),
                    right: u128::from(right),
                });
            }
        }
    }
    Ok(())
}
