// What a schedule is judged over.
ghost use Rattle.lt_inspect.specs.Grounded.{IsGrounded};

use lt_arch::{Shape, Timing};

/// The nodes and the channels between them, the bounds of time, how many rows of inputs there are, and the node that is named.
#[derive(Drop)]
pub struct Scene {
    pub shape: Shape,
    pub timing: Timing,
    pub rows: u32,
    pub node: Option<u32>,
    ghost grounded: { IsGrounded shape timing },
}
