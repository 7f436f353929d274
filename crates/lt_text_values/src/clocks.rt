// Clocks.
ghost use Rattle.std.specs.Prelude.{◌≡◌, ◌++◌, codes, if◌then◌else◌, OnOk};
ghost use Rattle.lt_text_values.specs.Clocks.{clock_path_text, step_text, clock_place_text};

use crate::names::append_variable;
use lt_base::{Clock, List, Memory, append_number};
use lt_syntax::Tree;

/// Appends a clock: `base`, and then each pair from there inwards.
pub fn append_clock(
    line: &mut List<u8>,
    tree: &Tree,
    func: u32,
    clock: &Clock,
) -> Result<(), Memory>
    ensures { OnOk result (line.new ≡ line.old ++ clock_path_text tree.now func clock.now) }
{
    line.extend(b"base")?;
    for (variable, polarity) in clock.steps.iter() {
        append_step(line, tree, func, *variable, *polarity)?;
    }
    Ok(())
}

fn append_step(
    line: &mut List<u8>,
    tree: &Tree,
    func: u32,
    variable: u32,
    polarity: bool,
) -> Result<(), Memory>
    ensures { OnOk result (line.new ≡ line.old ++ step_text tree.now func (variable, polarity)) }
{
    line.extend(polarity_text(polarity).as_bytes())?;
    append_variable(line, tree, func, variable)
}

// What stands before a variable of a clock.
fn polarity_text(polarity: bool) -> &'static str
    ensures { result.now ≡ (if polarity then codes " on " else codes " on not ") }
{
    if polarity { " on " } else { " on not " }
}

/// Appends where a clock is at fault: a declaration, or an equation by its number from 1 on.
pub fn append_place(line: &mut List<u8>, at: Option<u32>) -> Result<(), Memory>
    ensures { OnOk result (line.new ≡ line.old ++ clock_place_text at) }
{
    match at {
        None => line.extend(b"declaration"),
        Some(equation) => {
            line.extend(b"equation ")?;
            append_number(line, u64::from(equation) + 1)
        }
    }
}
