// Setups.
ghost use Rattle.std.specs.Prelude.{◌≡◌, ◌≤◌, length};
ghost use Rattle.lt_arch.specs.Placement.{node_names};
ghost use Rattle.lt_config.specs.declared.limits.TheConstants.{MOST_NODES};
ghost use Rattle.lt_arch.specs.Paced.{FitsPace};

use crate::Pace;
use lt_arch::{Placement, Timing};

/// A setup: the protocol with its bounds of time and countdowns, and what is on which node.
#[derive(Drop)]
pub struct Config {
    pub timing: Timing,
    pub placement: Placement,
    /// Whether the setup has a table by which nodes or pairs of nodes differ, be it empty.
    pub mixed: bool,
    pub pace: Pace,
    ghost same_nodes: { length timing.nodes ≡ length (node_names placement) },
    ghost few: { length timing.nodes ≤ MOST_NODES },
    ghost paced: { FitsPace pace timing },
}
