// What a schedule is judged over, by the pace of the protocol.
ghost use Rattle.std.specs.Prelude.{◌≡◌, ℕ};
ghost use Rattle.lt_arch.specs.declared.pace.Pace.TheVariants.{Lossy};
ghost use Rattle.lt_lossy.specs.Window.{HasWindow};
ghost use Rattle.lt_inspect.specs.Grounded.{IsGrounded};

use lt_arch::{Pace, Shape, Timing};
use lt_base::List;
use lt_place::Crossing;

/// The nodes and the channels between them, the bounds of time, what crosses, the pace of the protocol, and the node that is named.
#[derive(Drop)]
pub struct Ground {
    pub shape: Shape,
    pub timing: Timing,
    pub cross: List<Crossing>,
    pub pace: Pace,
    pub node: Option<u32>,
    ghost grounded: { IsGrounded shape timing },
    ghost windowed: { (losses : ℕ) → pace ≡ Lossy losses → HasWindow timing },
}

/// The same with the count of rows of inputs.
#[derive(Drop)]
pub struct Stage {
    pub ground: Ground,
    pub rows: u32,
}
