// The line of a refused program.
ghost use Rattle.std.specs.Prelude.{◌≡◌, ◌++◌, bytes_eq, codes, if◌then◌else◌, IfOk, OnOk};
ghost use Rattle.lt_text_lines.specs.Lines.{syntax_line, name_line, named_text, found_name_line, program_limit_line, types_text, mistyped_text, type_line, wanted_text, misclocked_text, clock_line, spaced_variables, circle_text, cycle_line, size_line, program_line};
ghost use Rattle.lt_text_values.specs.Names.{function_name};

use crate::located::append_located;
use crate::words::{found_type, name_kind, syntax_kind, ty};
use lt_base::limits::GREATEST_WEIGHT;
use lt_base::{List, Memory, Name, Sizes, Ty};
use lt_cause::Cycle;
use lt_check::{ClockFault, TypeFault};
use lt_front::ProgramFault;
use lt_resolve::{NameFault, NameKind};
use lt_syntax::{SyntaxFault, Tree};
use lt_text_values::{append_clock, append_function, append_name, append_place, append_variable};
use std::alloc::Global;

/// The line of a refused program, without a line feed. Names stand in it as they are.
pub fn program_line(alloc: Global, fault: &ProgramFault) -> Result<List<u8>, Memory>
    ensures { IfOk result (λ line. line ≡ program_line fault.now) }
{
    match fault {
        ProgramFault::Syntax(fault) => syntax_line(alloc, fault),
        ProgramFault::Name(fault, tree) => name_line(alloc, fault, tree),
        ProgramFault::Type(fault, tree) => type_line(alloc, fault, tree),
        ProgramFault::Clock(fault, tree) => clock_line(alloc, fault, tree),
        ProgramFault::Cycle { func, cycle, tree } => cycle_line(alloc, *func, cycle, tree),
        ProgramFault::TooMany(sizes) => size_line(alloc, *sizes),
    }
}

fn syntax_line(alloc: Global, fault: &SyntaxFault) -> Result<List<u8>, Memory>
    ensures { IfOk result (λ line. line ≡ syntax_line fault.now) }
{
    let mut line = List::new(alloc);
    let kind = syntax_kind(fault.kind);
    append_located(&mut line, b"syntax ", kind, b" at byte ", fault.at)?;
    Ok(line)
}

fn name_line(alloc: Global, fault: &NameFault, tree: &Tree) -> Result<List<u8>, Memory>
    ensures { IfOk result (λ line. line ≡ name_line fault.now tree.now) }
{
    match fault.kind {
        NameKind::NoMain => List::from_slice(alloc, b"name 6 NoMain"),
        NameKind::Limit => limit_line(alloc, fault),
        _ => found_name_line(alloc, fault, tree),
    }
}

fn found_name_line(alloc: Global, fault: &NameFault, tree: &Tree) -> Result<List<u8>, Memory>
    ensures { IfOk result (λ line. line ≡ found_name_line fault.now tree.now) }
{
    let mut line = List::from_slice(alloc, b"name ")?;
    append_named(&mut line, fault, tree)?;
    Ok(line)
}

// Appends the kind of a fault of names, its function and its name.
fn append_named(line: &mut List<u8>, fault: &NameFault, tree: &Tree) -> Result<(), Memory>
    ensures { OnOk result (line.new ≡ line.old ++ named_text fault.now tree.now) }
{
    line.extend(name_kind(fault.kind).as_bytes())?;
    line.extend(b" in node ")?;
    append_owner(line, tree, fault.func)?;
    append_name(line, &fault.name)
}

fn limit_line(alloc: Global, fault: &NameFault) -> Result<List<u8>, Memory>
    ensures { IfOk result (λ line. line ≡ program_limit_line fault.now.name) }
{
    let mut line = List::from_slice(alloc, b"limit: ")?;
    append_limit(&mut line, &fault.name)?;
    Ok(line)
}

// Appends the word of a quantity and its limit.
fn append_limit(line: &mut List<u8>, word: &Name) -> Result<(), Memory>
    ensures { OnOk result (line.new ≡ line.old ++ word.now ++ (if bytes_eq word.now (codes "variables") then codes " 4096" else codes " 64")) }
{
    append_name(line, word)?;
    if word.as_str() == "variables" {
        line.extend(b" 4096")
    } else {
        line.extend(b" 64")
    }
}

fn type_line(alloc: Global, fault: &TypeFault, tree: &Tree) -> Result<List<u8>, Memory>
    ensures { IfOk result (λ line. line ≡ type_line fault.now tree.now) }
{
    let mut line = List::from_slice(alloc, b"type in node ")?;
    append_mistyped(&mut line, fault, tree)?;
    Ok(line)
}

// Appends a function, its variable that is at fault, and the types.
fn append_mistyped(line: &mut List<u8>, fault: &TypeFault, tree: &Tree) -> Result<(), Memory>
    ensures { OnOk result (line.new ≡ line.old ++ mistyped_text fault.now tree.now) }
{
    append_owner(line, tree, fault.func)?;
    append_variable(line, tree, fault.func, fault.var)?;
    append_types(line, fault.want, fault.got)
}

// Appends the type that a variable has, and the one that was found.
fn append_types(line: &mut List<u8>, want: Ty, got: Option<Ty>) -> Result<(), Memory>
    ensures { OnOk result (line.new ≡ line.old ++ types_text want got) }
{
    line.extend(b" is ")?;
    line.extend(ty(want).as_bytes())?;
    line.extend(b", found ")?;
    line.extend(found_type(got).as_bytes())
}

fn clock_line(alloc: Global, fault: &ClockFault, tree: &Tree) -> Result<List<u8>, Memory>
    ensures { IfOk result (λ line. line ≡ clock_line fault.now tree.now) }
{
    let mut line = List::from_slice(alloc, b"clock in node ")?;
    append_misclocked(&mut line, fault, tree)?;
    Ok(line)
}

// Appends a function, the place of its fault, and the clock.
fn append_misclocked(line: &mut List<u8>, fault: &ClockFault, tree: &Tree) -> Result<(), Memory>
    ensures { OnOk result (line.new ≡ line.old ++ misclocked_text fault.now tree.now) }
{
    append_owner(line, tree, fault.func)?;
    append_place(line, fault.at)?;
    append_wanted(line, fault, tree)
}

// Appends the variable that is at fault and the clock that is wanted.
fn append_wanted(line: &mut List<u8>, fault: &ClockFault, tree: &Tree) -> Result<(), Memory>
    ensures { OnOk result (line.new ≡ line.old ++ wanted_text fault.now tree.now) }
{
    line.extend(b" of ")?;
    append_variable(line, tree, fault.func, fault.var)?;
    line.extend(b" on ")?;
    append_clock(line, tree, fault.func, &fault.want)
}

// Appends a function's name and a colon.
fn append_owner(line: &mut List<u8>, tree: &Tree, func: u32) -> Result<(), Memory>
    ensures { OnOk result (line.new ≡ line.old ++ function_name tree.now func ++ codes ": ") }
{
    append_function(line, tree, func)?;
    line.extend(b": ")
}

fn cycle_line(alloc: Global, func: u32, cycle: &Cycle, tree: &Tree) -> Result<List<u8>, Memory>
    ensures { IfOk result (λ line. line ≡ cycle_line func cycle.now.vars tree.now) }
{
    let mut line = List::from_slice(alloc, b"cycle in node ")?;
    append_cycle(&mut line, func, cycle, tree)?;
    Ok(line)
}

// Appends a function and the variables of its cycle.
fn append_cycle(line: &mut List<u8>, func: u32, cycle: &Cycle, tree: &Tree) -> Result<(), Memory>
    ensures { OnOk result (line.new ≡ line.old ++ circle_text func cycle.now.vars tree.now) }
{
    append_function(line, tree, func)?;
    line.extend(b":")?;
    append_each(line, tree, func, &cycle.vars)
}

// Appends a space and a name for each of these variables of a function.
fn append_each(line: &mut List<u8>, tree: &Tree, func: u32, variables: &[u32]) -> Result<(), Memory>
    ensures { OnOk result (line.new ≡ line.old ++ spaced_variables tree.now func variables.now) }
{
    for variable in variables {
        line.extend(b" ")?;
        append_variable(line, tree, func, *variable)?;
    }
    Ok(())
}

fn size_line(alloc: Global, sizes: Sizes) -> Result<List<u8>, Memory>
    ensures { IfOk result (λ line. line ≡ size_line sizes) }
{
    if sizes.weight > GREATEST_WEIGHT {
        List::from_slice(alloc, b"limit: weight 4096")
    } else {
        List::from_slice(alloc, b"limit: parts 262144")
    }
}
