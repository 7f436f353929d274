// The line of a refused observer.
ghost use Rattle.std.specs.Prelude.{◌≡◌, ◌++◌, OnOk};
ghost use Rattle.lt_text_lines.specs.FileLines.{observer_kind_text, observer_line};

use crate::located::append_located;
use lt_base::{List, Memory};
use lt_past::{ObserverFault, ObserverKind};

/// Appends the line of a refused observer, without a line feed.
pub fn append_observer(line: &mut List<u8>, fault: ObserverFault) -> Result<(), Memory>
    ensures { OnOk result (line.new ≡ line.old ++ observer_line fault) }
{
    let kind = kind_text(fault.kind);
    append_located(line, b"observer ", kind, b" at byte ", fault.at)
}

// A kind's number and name.
fn kind_text(kind: ObserverKind) -> &'static str
    ensures { result.now ≡ observer_kind_text kind }
{
    match kind {
        ObserverKind::BadByte => "1 BadByte",
        ObserverKind::Unexpected => "2 Unexpected",
        ObserverKind::TooDeep => "3 TooDeep",
        ObserverKind::UnknownName => "4 UnknownName",
        ObserverKind::NotBool => "5 NotBool",
        ObserverKind::NotBase => "6 NotBase",
    }
}
