// The step of a node.

ghost use Rattle.std.specs.Prelude.{◌≡◌, ◌++◌, ◌<◌, ◌^◌, length, IfOk, OnOk};
ghost use Rattle.lt_c.specs.Tree.{Statement, slot, output, assign, both, c_var};
ghost use Rattle.lt_c.specs.Text.{statement_text};
ghost use Rattle.lt_c.specs.Views.{place_in, statement_of};
ghost use Rattle.lt_c_step.specs.Part.{source_variable, feeding, telling, showing};
ghost use Rattle.lt_c_heads.specs.Words.{spelling, indent};
ghost use Rattle.lt_c_heads.specs.Types.{has_items};
ghost use Rattle.lt_c_bodies.specs.Steps.{fed_text, equations_text, shown_text, kept_text, shown_one, execute_text};

use crate::code::{keeps_of, lets_of};
use crate::equations::told_lets;
use crate::statements::{copied, statement, then};
use lt_base::{Clock, Decl, List, Memory};
use lt_c::{Action, Variable};
use lt_c_heads::NodeFile;
use lt_c_heads::words::{has_items, one_if};
use lt_c_step::{Output, Source, clock_expression, keeps};
use lt_step::{Keep, Let};
use std::alloc::Global;

// The variable from which an input comes.
fn place_of(source: Source) -> Variable
    ensures { place_in result ≡ source_variable source }
{
    match source {
        Source::Given(x) => Variable::Input(x),
        Source::Arrived(j, k) => Variable::Payload(j, k),
    }
}

// An input is fed before others.
fn fed_before(alloc: Global, x: u32, source: Source, rest: Action) -> Result<Action, Memory>
    ensures { IfOk result (λ s. (run : Statement) → statement_of run s ≡ both (assign (slot x) (c_var (source_variable source))) (statement_of run rest)) }
{
    then(alloc, copied(Variable::Slot(x), place_of(source)), rest)
}

fn feeding(alloc: Global, sources: &[Source]) -> Result<Action, Memory>
    requires few { length sources.now < 2 ^ 32 }
    ensures { IfOk result (λ s. (run : Statement) → statement_of run s ≡ feeding 0 sources.now) }
{
    let mut all = Action::Nothing;
    'sources: for i in 0..sources.len() {
        let x = sources.len() - 1 - i;
        all = fed_before(alloc, x as u32, sources[x], all)?;
    }
    Ok(all)
}

// Whether the output of a number, and of this clock, has a value is told, where it need not have one.
fn telling(alloc: Global, y: u32, clock: &Clock) -> Result<Action, Memory>
    ensures { IfOk result (λ s. (run : Statement) → statement_of run s ≡ telling y clock.now) }
{
    if clock.steps.is_empty() {
        return Ok(Action::Nothing);
    }
    let holds = clock_expression(alloc, clock)?;
    Ok(Action::Assign(Variable::Has(y), holds))
}

// An output is shown before others.
fn shown_before(alloc: Global, o: &Output, rest: Action) -> Result<Action, Memory>
    ensures { IfOk result (λ s. (run : Statement) → statement_of run s ≡ both (shown_one o.now) (statement_of run rest)) }
{
    let told = telling(alloc, o.output_number, &o.guard)?;
    let value = copied(
        Variable::Output(o.output_number),
        Variable::Slot(o.from_slot),
    );
    let first = then(alloc, told, value)?;
    then(alloc, first, rest)
}

fn showing(alloc: Global, outputs: &[Output]) -> Result<Action, Memory>
    ensures { IfOk result (λ s. (run : Statement) → statement_of run s ≡ showing outputs.now) }
{
    let mut all = Action::Nothing;
    'outputs: for i in 0..outputs.len() {
        let output = &outputs[outputs.len() - 1 - i];
        all = shown_before(alloc, output, all)?;
    }
    Ok(all)
}

// Appends what an instant is fed with, in its statements.
fn feeds(alloc: Global, out: &mut List<u8>, file: &NodeFile) -> Result<(), Memory>
    ensures { OnOk result (out.new ≡ out.old ++ statement_text (spelling file.now) indent (feeding 0 file.now.part.sources)) }
{
    let feeds = feeding(alloc, &file.part.sources)?;
    statement(alloc, out, file, &feeds)
}

fn fed(alloc: Global, out: &mut List<u8>, file: &NodeFile) -> Result<(), Memory>
    ensures { OnOk result (out.new ≡ out.old ++ fed_text file.now) }
{
    one_if(
        out,
        has_items(file.part.sources.as_slice()),
        b"    /* what the instant is fed with */\n",
    )?;
    feeds(alloc, out, file)
}

// Appends its equations, each with its statement.
fn equations(out: &mut List<u8>, decls: &[Decl], items: &[Let]) -> Result<(), Memory>
    ensures { OnOk result (out.new ≡ out.old ++ equations_text decls.now items.now) }
{
    one_if(out, has_items(items), b"    /* the equations */\n")?;
    told_lets(out, decls, items)
}

// Appends its outputs, in their statements.
fn shows(alloc: Global, out: &mut List<u8>, file: &NodeFile) -> Result<(), Memory>
    ensures { OnOk result (out.new ≡ out.old ++ statement_text (spelling file.now) indent (showing file.now.part.outputs)) }
{
    let shows = showing(alloc, &file.part.outputs)?;
    statement(alloc, out, file, &shows)
}

fn shown(alloc: Global, out: &mut List<u8>, file: &NodeFile) -> Result<(), Memory>
    ensures { OnOk result (out.new ≡ out.old ++ shown_text file.now) }
{
    one_if(
        out,
        has_items(file.part.outputs.as_slice()),
        b"    /* the outputs */\n",
    )?;
    shows(alloc, out, file)
}

// Appends what delays keep.
fn kept(out: &mut List<u8>, decls: &[Decl], items: &[Keep]) -> Result<(), Memory>
    ensures { OnOk result (out.new ≡ out.old ++ kept_text decls.now items.now) }
{
    one_if(out, has_items(items), b"    /* what delays keep */\n")?;
    keeps(out, decls, items)
}

/// Appends the function that executes an instant.
pub fn execute(alloc: Global, out: &mut List<u8>, file: &NodeFile) -> Result<(), Memory>
    ensures { OnOk result (out.new ≡ out.old ++ execute_text file.now) }
{
    out.extend(b"\n/* Executes the next instant. */\nstatic void execute(void)\n{\n")?;
    fed(alloc, out, file)?;
    equations(out, &file.part.decls, lets_of(&file.part.code))?;
    shown(alloc, out, file)?;
    kept(out, &file.part.decls, keeps_of(&file.part.code))?;
    out.extend(b"}\n")
}
