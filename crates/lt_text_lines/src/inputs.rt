// The line of refused inputs.
ghost use Rattle.std.specs.Prelude.{◌≡◌, ◌++◌, OnOk};
ghost use Rattle.lt_text_lines.specs.FileLines.{inputs_kind_text, inputs_line};

use crate::located::append_located;
use lt_base::{List, Memory};
use lt_inputs::{InputFault, InputKind};

/// Appends the line of a row that is none, or of too many, without a line feed.
pub fn append_inputs(line: &mut List<u8>, fault: InputFault) -> Result<(), Memory>
    ensures { OnOk result (line.new ≡ line.old ++ inputs_line fault) }
{
    if matches!(fault.kind, InputKind::TooMany) {
        return line.extend(b"limit: input rows 100000");
    }
    let kind = kind_text(fault.kind);
    append_located(line, b"inputs ", kind, b" at row ", fault.row as usize)
}

// A kind's number and name.
fn kind_text(kind: InputKind) -> &'static str
    ensures { result.now ≡ inputs_kind_text kind }
{
    match kind {
        InputKind::NotCsv => "1 NotCsv",
        InputKind::Header => "2 Header",
        InputKind::Instant => "3 Instant",
        InputKind::Value => "4 Value",
        InputKind::TooMany => "5 TooMany",
    }
}
