// The line of a fault that has a place in a file.
ghost use Rattle.std.specs.Prelude.{◌≡◌, ◌++◌, OnOk};
ghost use Rattle.std.specs.Fmt.{decimal};

use lt_base::{List, Memory, append_number};

/// Appends a fault's kind and its place, each with some text before it.
pub(crate) fn append_located(
    line: &mut List<u8>,
    head: &[u8],
    kind: &str,
    between: &[u8],
    place: usize,
) -> Result<(), Memory>
    ensures { OnOk result (line.new ≡ line.old ++ head.now ++ kind.now ++ between.now ++ decimal place) }
{
    line.extend(head)?;
    line.extend(kind.as_bytes())?;
    line.extend(between)?;
    append_number(line, place)
}
