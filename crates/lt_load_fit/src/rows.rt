// The refusal of a schedule that is too long.
ghost use Rattle.std.specs.Prelude.{◌≡◌};
ghost use Rattle.lt_load_fit.specs.Rows.{too_many_events};

use crate::CommandFault;
use lt_rows::RowFault;

/// The refusal of the first event past the limit on events.
pub fn too_many_events() -> CommandFault
    ensures { result ≡ too_many_events }
{
    CommandFault::Row {
        row: 5_000_001,
        fault: RowFault::TooMany,
    }
}
