// The line of a timing that is not accepted.
ghost use Rattle.std.specs.Prelude.{◌≡◌, ◌++◌, true, codes, OnOk};
ghost use Rattle.std.specs.Fmt.{decimal};
ghost use Rattle.lt_text_lines.specs.FileLines.{at_node, timing_line, which_text, window_line};

use lt_base::{List, Memory, Name, append_number};
use lt_lossy::WindowFault;
use lt_timing::{TimingFault, Which};

/// Appends the line of a timing that is not accepted, without a line feed. The node is named where nodes or pairs differ.
pub fn append_timing(
    line: &mut List<u8>,
    fault: TimingFault,
    names: &[Name],
    mixed: bool,
) -> Result<(), Memory>
    ensures { OnOk result (line.new ≡ line.old ++ timing_line fault names.now mixed) }
{
    line.extend(b"timing ")?;
    line.extend(which_text(fault.which).as_bytes())?;
    append_where(line, names, mixed, fault.node)?;
    append_gap(line, fault.left, fault.right)
}

/// Appends the line of a pair of nodes that is not in the window, without a line feed. The first node is named.
pub fn append_window(line: &mut List<u8>, fault: WindowFault, names: &[Name]) -> Result<(), Memory>
    ensures { OnOk result (line.new ≡ line.old ++ window_line fault names.now) }
{
    line.extend(b"timing 4 Window")?;
    append_node(line, names, fault.node)?;
    append_gap(line, fault.left, fault.right)
}

// A number and a name.
fn which_text(which: Which) -> &'static str
    ensures { result.now ≡ which_text which }
{
    match which {
        Which::Execute => "1 Execute",
        Which::Send => "2 Send",
        Which::First => "3 First",
    }
}

// Appends ` at ` and the name of a node, where nodes differ.
fn append_where(line: &mut List<u8>, names: &[Name], mixed: bool, node: u32) -> Result<(), Memory>
    ensures { OnOk result (line.new ≡ line.old ++ at_node names.now mixed node) }
{
    if mixed {
        return append_node(line, names, node);
    }
    Ok(())
}

// Appends ` at ` and the name of a node.
fn append_node(line: &mut List<u8>, names: &[Name], node: u32) -> Result<(), Memory>
    ensures { OnOk result (line.new ≡ line.old ++ at_node names.now true node) }
{
    line.extend(b" at ")?;
    match names.get(node as usize) {
        Some(name) => line.extend(name.as_str().as_bytes()),
        None => Ok(()),
    }
}

// Appends which number is not above which.
fn append_gap(line: &mut List<u8>, left: u128, right: u128) -> Result<(), Memory>
    ensures { OnOk result (line.new ≡ line.old ++ codes ": " ++ decimal left ++ codes " is not above " ++ decimal right) }
{
    line.extend(b": ")?;
    append_number(line, left)?;
    line.extend(b" is not above ")?;
    append_number(line, right)
}
