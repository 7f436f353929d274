// Where a program runs.
use lt_arch::{Shape, Timing};
use lt_config::Pace;
use lt_place::Layout;

/// A program on its nodes, the channels between them, the bounds of time, and the pace of the protocol.
#[derive(Drop)]
pub struct Site {
    pub layout: Layout,
    pub shape: Shape,
    pub timing: Timing,
    pub pace: Pace,
}
