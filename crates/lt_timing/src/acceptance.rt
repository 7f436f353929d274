// Whether a timing is accepted.
ghost use Rattle.std.specs.Prelude.{ℕ, ◌≤◌, ◌<◌, MatchResult, length};
ghost use Rattle.lt_arch.specs.Readers.{send_of, execute_of};
ghost use Rattle.lt_timing.specs.Accepts.{Accepts, InequalityHolds, IsFaultOf, IsFirstTimingFault};

use crate::sides::sides;
use crate::{TimingFault, Which};
use lt_arch::{Protocol, Timing};

/// Whether a timing is accepted, and else the first inequality that fails for some node, at the first such node.
pub fn accepts(timing: &Timing) -> Result<(), TimingFault>
    ensures { MatchResult result (λ _. Accepts timing.now) (λ fault. IsFirstTimingFault timing.now fault) }
{
    match timing.protocol {
        Protocol::BackPressure => return Ok(()),
        Protocol::TimeBased => {}
    }
    if timing.node_count() < 2 {
        return Ok(());
    }
    holds(Which::Execute, timing)?;
    holds(Which::Send, timing)?;
    holds(Which::First, timing)?;
    Ok(())
}

// Whether an inequality holds of every node.
fn holds(which: Which, timing: &Timing) -> Result<(), TimingFault>
    requires { 2 ≤ length timing.now.nodes }
    ensures { MatchResult result
        (λ _. (j : ℕ) → j < length timing.now.nodes → InequalityHolds which timing.now (send_of timing.now) (execute_of timing.now) j)
        (λ fault. IsFaultOf which timing.now fault) }
{
    for node in 0..timing.node_count() {
        let (left, right) = sides(which, timing, node);
        if left <= right {
            return Err(TimingFault {
                which,
                node,
                left,
                right,
            });
        }
    }
    Ok(())
}
