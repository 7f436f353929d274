// What monitors answer, instant by instant: drawn formulas over drawn runs, each answer against the definition.
ghost use Rattle.std.specs.Prelude.{◌≡◌, ◌<◌, ◌+◌, ◌^◌, [], ◌∷◌, IfOk, OnOk, length};
ghost use Rattle.std.specs.List.{All};

mod drawing;
mod formula;
mod satisfaction;

use crate::observers::drawing::{Row, draw, draw_run};
use crate::observers::formula::{Formula, NAMES, put};
use crate::observers::satisfaction::holds;
use lt_base::{Clock, Decl, Func, List, Memory, Name, Or, Ty};
use lt_past::{Monitor, Observer, ObserverFault, read_observer};
use rand_core::SeedableRng;
use rand_xoshiro::SplitMix64;
use std::alloc::Global;
use std::process::Abort;

fn bool_variable(alloc: Global, name: &str) -> Result<Decl, Memory>
    ensures { IfOk result (λ d. d.clock ≡ []) }
{
    Ok(Decl {
        name: Name::from_str(alloc, name)?,
        ty: Ty::Bool,
        clock: Clock::base(alloc),
    })
}

// Appends a variable.
fn add_variable(alloc: Global, name: &str, decls: &mut Vec<Decl>) -> Result<(), Memory>
    requires base { All (λ d. d.clock ≡ []) decls.old.items }
    ensures count { OnOk result (length decls.new.items ≡ length decls.old.items + 1) }
    ensures base { OnOk result (All (λ d. d.clock ≡ []) decls.new.items) }
{
    let decl = bool_variable(alloc, name)?;
    decls.push(decl)?;
    Ok(())
}

fn variables(alloc: Global) -> Result<List<Decl>, Memory>
    ensures count { IfOk result (λ decls. length decls ≡ 3) }
    ensures base { IfOk result (λ decls. All (λ d. d.clock ≡ []) decls) }
{
    let mut decls = Vec::new(alloc);
    add_variable(alloc, NAMES[0], &mut decls)?;
    add_variable(alloc, NAMES[1], &mut decls)?;
    add_variable(alloc, NAMES[2], &mut decls)?;
    Ok(List::of(decls))
}

// A function of three inputs, which are its outputs too.
fn three_outputs(alloc: Global) -> Result<Func, Memory>
    ensures { IfOk result (λ f. length f.outs ≡ 3) }
{
    let name = Name::from_str(alloc, "main")?;
    let outs = List::from_slice(alloc, &[0, 1, 2])?;
    function_of(alloc, name, outs)
}

// The same with its name and the places of its outputs.
fn function_of(alloc: Global, name: Name, outs: List<u32>) -> Result<Func, Memory>
    requires { outs ≡ 0 ∷ 1 ∷ 2 ∷ [] }
    ensures { IfOk result (λ f. length f.outs ≡ 3) }
{
    let decls = variables(alloc)?;
    Ok(Func::new(name, decls, 3, outs, List::new(alloc)))
}

// Puts the truth values of the outputs at these places into a row.
fn fill(outs: &[u32], values: &Row, row: &mut [bool])
    requires { length row.old ≡ length outs.now }
{
    for k in 0..outs.len() {
        row[k] = values[outs[k] as usize % 3];
    }
}

// The first instant at which a monitor of the observer answers otherwise than the definition.
fn first_difference(
    alloc: Global,
    observer: &Observer,
    formula: &Formula,
    rows: &[Row],
) -> Result<Option<usize>, Memory> {
    let outs = observer.outs.as_slice();
    let mut monitor = Monitor::start(alloc, observer)?;
    let mut row = vec![in alloc; false; outs.len()]?;
    'instants: for i in 0..rows.len() {
        fill(outs, &rows[i], &mut row);
        if monitor.step(&row) != holds(formula, rows, i) {
            return Ok(Some(i));
        }
    }
    Ok(None)
}

// The same for a text that is to spell the formula.
fn first_difference_of_text(
    alloc: Global,
    main: &Func,
    text: &str,
    formula: &Formula,
    rows: &[Row],
) -> Result<Option<usize>, Or<ObserverFault>>
    requires { length main.now.outs < 2 ^ 32 }
{
    let observer = read_observer(alloc, text.as_bytes(), main)?;
    Ok(first_difference(alloc, &observer, formula, rows)?)
}

fn text_of(alloc: Global, formula: &Formula) -> Result<String, Memory> {
    let mut text = String::new(alloc);
    put(formula, 1, &mut text)?;
    Ok(text)
}

// The text of a formula, and the instant where a monitor of it and the formula differ.
fn difference_of(
    alloc: Global,
    main: &Func,
    formula: &Formula,
    rows: &[Row],
) -> Result<Option<(String, usize)>, Or<ObserverFault>>
    requires { length main.now.outs < 2 ^ 32 }
{
    let text = text_of(alloc, formula)?;
    match first_difference_of_text(alloc, main, text.as_str(), formula, rows)? {
        Some(instant) => Ok(Some((text, instant))),
        None => Ok(None),
    }
}

// The same for a formula and a run that are drawn.
fn difference(
    alloc: Global,
    main: &Func,
    dice: &mut SplitMix64,
) -> Result<Option<(String, usize)>, Or<ObserverFault>>
    requires { length main.now.outs < 2 ^ 32 }
{
    let rows = draw_run(alloc, dice)?;
    let formula = draw(alloc, dice, 5)?;
    difference_of(alloc, main, &formula, rows.as_slice())
}

fn must_agree<R: Abort>(
    rt: &R,
    found: Result<Option<(String, usize)>, Or<ObserverFault>>,
    case: u32,
) {
    match found {
        Ok(None) => {}
        Ok(Some((text, instant))) => {
            assert!(rt; false, "{} at {instant} in case {case}", text.as_str());
        }
        Err(_) => assert!(rt; false, "no answer in case {case}"),
    }
}

fn all_agree<R: Abort>(rt: &R, alloc: Global, main: &Func)
    requires { length main.now.outs < 2 ^ 32 }
{
    let mut dice = SplitMix64::seed_from_u64(1);
    for case in 0..1_000 {
        must_agree(rt, difference(alloc, main, &mut dice), case);
    }
}

#[test]
fn monitors_answer_as_defined(rt: HostRuntime) {
    match three_outputs(rt.alloc()) {
        Ok(main) => all_agree(&rt, rt.alloc(), &main),
        Err(_) => assert!(rt; false, "no memory"),
    }
}
