// A network's layout, shape and timing, to be given away.
ghost use Rattle.std.specs.Prelude.{◌≡◌, IfOk};

use lt_arch::{Shape, Timing};
use lt_base::Memory;
use lt_place::Layout;

/// A layout, and a shape and a timing for it.
#[derive(Drop)]
pub struct NetPlan {
    pub layout: Layout,
    pub shape: Shape,
    pub timing: Timing,
}

/// Equal ones.
pub fn copies(layout: &Layout, shape: &Shape, timing: &Timing) -> Result<NetPlan, Memory>
    ensures layout { IfOk result (λ setup. setup.layout ≡ layout.now) }
    ensures shape { IfOk result (λ setup. setup.shape ≡ shape.now) }
    ensures timing { IfOk result (λ setup. setup.timing ≡ timing.now) }
{
    let timing = timing.copy()?;
    let shape = shape.copy()?;
    let layout = layout.copy()?;
    Ok(NetPlan {
        layout,
        shape,
        timing,
    })
}
