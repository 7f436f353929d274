// What is told of a schedule.
ghost use Rattle.std.specs.Prelude.{◌≡◌};
ghost use Rattle.lt_inspect.specs.Placed.{IsOfShape};

use lt_arch::Shape;
use lt_audit::Miss;

/// A schedule without an offence: how many events it has, and the first at which a node executes with a message too few or too many,
/// if there is one. The shape has the names of nodes and channels.
#[derive(Drop)]
pub struct Audited {
    pub events: u32,
    pub miss: Option<Miss>,
    pub shape: Shape,
    ghost placed: { IsOfShape shape miss },
}
