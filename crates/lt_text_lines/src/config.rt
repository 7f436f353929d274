// The line of a refused setup.
ghost use Rattle.std.specs.Prelude.{◌≡◌, ◌++◌, OnOk};
ghost use Rattle.lt_text_lines.specs.FileLines.{config_kind_text, config_line};

use lt_base::{List, Memory};
use lt_config::{ConfigFault, ConfigKind};

/// Appends the line of a refused setup, without a line feed. The key stands in it as it is.
pub fn append_config(line: &mut List<u8>, fault: &ConfigFault) -> Result<(), Memory>
    ensures { OnOk result (line.new ≡ line.old ++ config_line fault.now) }
{
    if matches!(fault.kind, ConfigKind::NotToml) {
        return line.extend(b"config 1 NotToml");
    }
    line.extend(b"config ")?;
    line.extend(kind_text(fault.kind).as_bytes())?;
    line.extend(b": ")?;
    line.extend(fault.key.as_str().as_bytes())
}

// A kind's number and name.
fn kind_text(kind: ConfigKind) -> &'static str
    ensures { result.now ≡ config_kind_text kind }
{
    match kind {
        ConfigKind::NotToml => "1 NotToml",
        ConfigKind::Missing => "2 Missing",
        ConfigKind::WrongKind => "3 WrongKind",
        ConfigKind::UnknownKey => "4 UnknownKey",
        ConfigKind::OutOfRange => "5 OutOfRange",
        ConfigKind::BadName => "6 BadName",
    }
}
