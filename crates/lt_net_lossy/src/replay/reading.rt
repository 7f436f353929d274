// What a row of a schedule reads as.
ghost use Rattle.std.specs.Prelude.{◌≡◌, ◌<◌, ◌^◌, length, IfOk};
ghost use Rattle.lt_lossy.specs.Events.{lossy_event_of, IsLossyEventOf};

use lt_arch::Shape;
use lt_lossy::{LossyEvent, read_lossy};
use lt_rows::{PlaceTable, RowFault};

/// The event of a line, as `read_lossy` answers it. The table of the shape's places finds those of all events but losses.
pub(crate) fn read_row(
    places: &PlaceTable,
    line: &[u8],
    shape: &Shape,
) -> Result<LossyEvent, RowFault>
    requires nodes { length shape.now.nodes < 2 ^ 32 }
    requires channels { length shape.now.channels < 2 ^ 32 }
    ensures event { result ≡ lossy_event_of shape.now line.now }
    ensures of_shape { IfOk result (IsLossyEventOf shape.now) }
{
    match places.read_event(line, shape) {
        Ok(e) => Ok(LossyEvent::Plain(e)),
        Err(_) => read_lossy(line, shape),
    }
}
