// The line of a refused placement.
ghost use Rattle.std.specs.Prelude.{◌≡◌, ◌++◌, codes, OnOk};
ghost use Rattle.lt_evaluate.specs.Main.{written_name};
ghost use Rattle.lt_text_answers.specs.Lines.{place_line};

use lt_base::{Func, List, Memory, Name};
use lt_place::PlaceFault;

/// Appends the line of a refused placement, without a line feed. Variables stand in it by the names that this function declares.
pub(crate) fn append_placement(
    line: &mut List<u8>,
    main: &Func,
    fault: &PlaceFault,
) -> Result<(), Memory>
    ensures { OnOk result (line.new ≡ line.old ++ place_line main.now fault.now) }
{
    match fault {
        PlaceFault::Unplaced { var } => {
            append_variable(line, b"placement 1 Unplaced: ", main, *var)
        }
        PlaceFault::PlacedTwice { var } => {
            append_variable(line, b"placement 2 PlacedTwice: ", main, *var)
        }
        PlaceFault::UnknownName { name } => append_unknown(line, name),
        PlaceFault::DirectCross { reader, read } => {
            append_pair(
                line,
                b"placement 4 DirectCross: ",
                main,
                *reader,
                b" reads ",
                *read,
            )
        }
        PlaceFault::SlowCross { reader, read } => {
            append_pair(
                line,
                b"placement 5 SlowCross: ",
                main,
                *reader,
                b" reads ",
                *read,
            )
        }
        PlaceFault::ClockElsewhere { var, clock_var } => {
            append_pair(
                line,
                b"placement 6 ClockElsewhere: ",
                main,
                *var,
                b" on ",
                *clock_var,
            )
        }
    }
}

// Appends the line of a name that no variable has.
fn append_unknown(line: &mut List<u8>, name: &Name) -> Result<(), Memory>
    ensures { OnOk result (line.new ≡ line.old ++ codes "placement 3 UnknownName: " ++ name.now) }
{
    line.extend(b"placement 3 UnknownName: ")?;
    line.extend(name.as_str().as_bytes())
}

// Appends two variables' names, each with some text before it.
fn append_pair(
    line: &mut List<u8>,
    head: &[u8],
    main: &Func,
    first: u32,
    between: &[u8],
    second: u32,
) -> Result<(), Memory>
    ensures { OnOk result (line.new ≡ line.old ++ (head.now ++ written_name main.now first ++ between.now ++ written_name main.now second)) }
{
    append_variable(line, head, main, first)?;
    append_variable(line, between, main, second)
}

// Appends some text, and a variable's name.
fn append_variable(line: &mut List<u8>, text: &[u8], main: &Func, var: u32) -> Result<(), Memory>
    ensures { OnOk result (line.new ≡ line.old ++ (text.now ++ written_name main.now var)) }
{
    line.extend(text)?;
    append_name(line, main, var)
}

fn append_name(line: &mut List<u8>, main: &Func, var: u32) -> Result<(), Memory>
    ensures { OnOk result (line.new ≡ line.old ++ written_name main.now var) }
{
    match main.decls.get(var as usize) {
        Some(decl) => line.extend(decl.name.as_str().as_bytes()),
        None => Ok(()),
    }
}
