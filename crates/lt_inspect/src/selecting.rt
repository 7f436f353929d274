// Which events are selected, as a function.
ghost use Rattle.std.specs.Prelude.{◌≡◌};
ghost use Rattle.lt_audit.specs.Selected.{selected};

use lt_arch::{Event, Shape};
use lt_audit::Selection;

/// Whether a selection selects an event of this shape.
pub fn selects(selection: &Selection, shape: &Shape, e: &Event) -> bool
    ensures { result ≡ selected selection.now shape.now e.now }
{
    selection.selects(shape, e)
}
