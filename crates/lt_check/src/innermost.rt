// Clocks by their innermost pairs.

ghost use Rattle.std.specs.Prelude.{◌≡◌, ◌≢◌, ◌<◌, Some, IfOk, length, reverse, MatchBool, MatchOption};
ghost use Rattle.lt_base.specs.Clocking.{WellFormed};
ghost use Rattle.lt_base.specs.Expression.{shape};
ghost use Rattle.lt_base.specs.Meaning.{clock_of};
ghost use Rattle.lt_check.specs.Innermost.{innermost, Linked, TellsLinks, same_pair, answers_on_base, is_at};

use crate::readers::function_at;
use lt_base::{Clock, Decl, Expr, Func, List, Memory};
use std::alloc::Global;

/// The innermost pair of a clock, and none for the base clock.
fn innermost(clock: &Clock) -> Option<(u32, bool)>
    ensures { result ≡ innermost clock.now }
{
    let steps = clock.steps.as_slice();
    if steps.is_empty() {
        return None;
    }
    Some(steps[steps.len() - 1])
}

/// The innermost pair of a variable's declared clock.
pub fn innermost_of(decls: &List<Decl>, variable: u32) -> Option<(u32, bool)>
    ensures { result ≡ innermost (clock_of decls.now variable) }
{
    match decls.get(variable as usize) {
        Some(decl) => innermost(&decl.clock),
        None => None,
    }
}

/// Whether the clock has these steps.
fn has_steps(clock: &Clock, steps: &[(u32, bool)]) -> bool
    ensures { MatchBool result (clock.now ≡ reverse steps.now) (clock.now ≢ reverse steps.now) }
{
    clock.steps.as_slice() == steps
}

/// Whether a clock goes one pair further than the declared clock of its last variable.
fn is_linked(decls: &List<Decl>, clock: &Clock) -> bool
    ensures { MatchBool result (Linked decls.now clock.now) (¬ Linked decls.now clock.now) }
{
    let steps = clock.steps.as_slice();
    if steps.is_empty() {
        return true;
    }
    let last = steps.len() - 1;
    match decls.get(steps[last].0 as usize) {
        Some(decl) => has_steps(&decl.clock, &steps[..last]),
        None => false,
    }
}

/// Whether the declared clock of each variable is linked.
pub fn links(alloc: Global, decls: &List<Decl>) -> Result<Vec<bool>, Memory>
    ensures { IfOk result (λ table. TellsLinks decls.now table.items) }
{
    let mut table = Vec::with_capacity(alloc, decls.len())?;
    for decl in decls.iter() {
        table.push(is_linked(decls, &decl.clock))?;
    }
    Ok(table)
}

/// Whether a variable's declared clock is well formed. It goes through the clock's variables, innermost first.
pub fn is_well_formed(decls: &List<Decl>, linked: &Vec<bool>, variable: u32) -> bool
    requires links { TellsLinks decls.now linked.now.items }
    requires inside { variable < length decls.now }
    ensures { MatchBool result (WellFormed decls.now (clock_of decls.now variable)) (¬ WellFormed decls.now (clock_of decls.now variable)) }
{
    let mut at = variable;
    loop {
        if !linked[at as usize] {
            return false;
        }
        match innermost_of(decls, at) {
            None => return true,
            Some((outer, _polarity)) => at = outer,
        }
    }
}

fn same_pair(a: Option<(u32, bool)>, b: Option<(u32, bool)>) -> bool
    ensures { result ≡ same_pair a b }
{
    match (a, b) {
        (None, None) => true,
        (Some((x, p)), Some((y, q))) => x == y && p == q,
        _ => false,
    }
}

/// Whether there is such a function, and its first output is on its base clock.
fn answers_on_base(f: Option<&Func>) -> bool
    ensures { MatchOption f.entry (result ≡ answers_on_base None) (λ g. result ≡ answers_on_base (Some g.now)) }
{
    match f {
        Some(f) => match f.outs.get(0) {
            Some(output) => innermost_of(&f.decls, *output).is_none(),
            None => false,
        },
        None => false,
    }
}

/// Whether an expression is at the clock that has this innermost pair.
pub fn is_at(funcs: &List<Func>, decls: &List<Decl>, e: &Expr, pair: Option<(u32, bool)>) -> bool
    ensures { result ≡ is_at funcs.now decls.now (shape e.now) pair }
{
    match e {
        Expr::Lit(_) => true,
        Expr::Var(x) => same_pair(innermost_of(decls, *x), pair),
        Expr::Un(_, a) => is_at(funcs, decls, a, pair),
        Expr::Bin(_, a, b) => is_at(funcs, decls, a, pair) && is_at(funcs, decls, b, pair),
        Expr::Imported(_, a, b) => is_at(funcs, decls, a, pair) && is_at(funcs, decls, b, pair),
        Expr::If(c, a, b) => {
            is_at(funcs, decls, c, pair)
                && is_at(funcs, decls, a, pair)
                && is_at(funcs, decls, b, pair)
        }
        Expr::When(e, c, b) => {
            same_pair(pair, Some((*c, *b))) && is_at(funcs, decls, e, innermost_of(decls, *c))
        }
        Expr::Merge(c, a, b) => {
            same_pair(innermost_of(decls, *c), pair)
                && is_at(funcs, decls, a, Some((*c, true)))
                && is_at(funcs, decls, b, Some((*c, false)))
        }
        Expr::Fby(_, e) => is_at(funcs, decls, e, pair),
        Expr::Follow(a, b) => is_at(funcs, decls, a, pair) && is_at(funcs, decls, b, pair),
        Expr::Arrow(a, b) => is_at(funcs, decls, a, pair) && is_at(funcs, decls, b, pair),
        Expr::Call(g, args) => {
            if !answers_on_base(function_at(funcs, *g)) {
                return false;
            }
            for a in args {
                if !is_at(funcs, decls, a, pair) {
                    return false;
                }
            }
            true
        }
    }
}
