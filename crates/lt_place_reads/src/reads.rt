// What an equation reads.

ghost use Rattle.std.specs.Prelude.{◌≡◌, ◌<◌, ◌++◌, MatchOption, IfOk, OnOk};
ghost use Rattle.lt_base.specs.Expression.{shape, variable, delayed};
ghost use Rattle.lt_base.specs.Dependence.{clock_vars};
ghost use Rattle.lt_place_reads.specs.Origins.{variable_count};
ghost use Rattle.lt_place_reads.specs.Reads.{delayed_reads, direct_reads, parts_read, whole_read, unless_base, looked, NotVariable, NotDelay};

use crate::look::Look;
use crate::view::decls;
use lt_base::{Clock, Equation, Expr, List, Memory, Value, push_reads};
use lt_norm::Flat;
use std::alloc::Global;

// Appends the variables of a clock, innermost first.
fn push_clock(clock: &Clock, to: &mut List<u32>) -> Result<(), Memory>
    ensures { OnOk result (to.new ≡ to.old ++ clock_vars clock.now) }
{
    for step in clock.steps.iter().rev() {
        to.push(step.0)?;
    }
    Ok(())
}

/// The number of the variable, where the expression is one.
pub(crate) fn variable_of(e: &Expr) -> Option<u32>
    ensures { MatchOption result (NotVariable (shape e.now)) (λ x. shape e.now ≡ variable x) }
{
    match e {
        Expr::Var(x) => Some(*x),
        _ => None,
    }
}

/// The literal and the operand, where the expression is a delay with a literal.
pub(crate) fn delay_of(e: &Expr) -> Option<(Value, &Expr)>
    ensures { MatchOption result (NotDelay (shape e.now)) (λ d. shape e.now ≡ delayed d.0 (shape d.1.now)) }
{
    match e {
        Expr::Fby(first, operand) => Some((*first, operand)),
        _ => None,
    }
}

// Appends what a delay of this operand reads otherwise than as the whole of it.
fn push_parts(operand: &Expr, to: &mut List<u32>) -> Result<(), Memory>
    ensures { OnOk result (to.new ≡ to.old ++ parts_read (shape operand.now)) }
{
    match variable_of(operand) {
        Some(_) => Ok(()),
        None => push_reads(operand, to),
    }
}

// Appends the operand of a delay, where it is a variable.
fn push_whole(operand: &Expr, to: &mut List<u32>) -> Result<(), Memory>
    ensures { OnOk result (to.new ≡ to.old ++ whole_read (shape operand.now)) }
{
    match variable_of(operand) {
        Some(x) => to.push(x),
        None => Ok(()),
    }
}

// Appends what a right side reads otherwise than as the whole of what a delay delays.
fn push_direct(right: &Expr, to: &mut List<u32>) -> Result<(), Memory>
    ensures { OnOk result (to.new ≡ to.old ++ direct_reads (shape right.now)) }
{
    match delay_of(right) {
        Some((_, operand)) => push_parts(operand, to),
        None => push_reads(right, to),
    }
}

// Appends the variable that is all that a delay delays.
fn push_delayed(right: &Expr, to: &mut List<u32>) -> Result<(), Memory>
    ensures { OnOk result (to.new ≡ to.old ++ delayed_reads (shape right.now)) }
{
    match delay_of(right) {
        Some((_, operand)) => push_whole(operand, to),
        None => Ok(()),
    }
}

// Appends it, where the clock is not the base clock.
fn push_slow(clock: &Clock, right: &Expr, to: &mut List<u32>) -> Result<(), Memory>
    ensures { OnOk result (to.new ≡ to.old ++ unless_base clock.now (delayed_reads (shape right.now))) }
{
    if clock.steps.is_empty() {
        return Ok(());
    }
    push_delayed(right, to)
}

/// What an equation of the function reads in this way.
pub fn looked_at(
    alloc: Global,
    f: &Flat,
    equation: &Equation,
    look: Look,
) -> Result<List<u32>, Memory>
    requires { equation.now.0 < variable_count f.now }
    ensures { IfOk result (λ ys. ys ≡ looked look f.now equation.now.0 equation.now.1) }
{
    let clock = &decls(f)[equation.left() as usize].clock;
    let mut ys = List::new(alloc);
    match look {
        Look::Clocks => push_clock(clock, &mut ys)?,
        Look::Direct => push_direct(equation.right(), &mut ys)?,
        Look::Slow => push_slow(clock, equation.right(), &mut ys)?,
    }
    Ok(ys)
}
