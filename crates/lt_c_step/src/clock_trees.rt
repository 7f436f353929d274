// The conditions of clocks, as trees.

ghost use Rattle.std.specs.Prelude.{◌≡◌, IfOk, reverse};
ghost use Rattle.lt_c.specs.Views.{tree_of};
ghost use Rattle.lt_c_step.specs.Part.{of_condition, clock_tree};
ghost use Rattle.lt_c_step.specs.Written.{next_clock};

use lt_base::{Clock, Memory};
use lt_c::{Expression, Symbol, Variable};
use std::alloc::Global;

// A slot of a truth value, negated where it is to be false.
fn condition(alloc: Global, c: u32, b: bool) -> Result<Expression, Memory>
    ensures { IfOk result (λ e. tree_of e ≡ of_condition c b) }
{
    if b {
        return Ok(Expression::Var(Variable::Slot(c)));
    }
    Ok(Expression::Not(Box::new(alloc, Expression::Var(Variable::Slot(c)))?))
}

// One more condition behind others, of which there are so many.
fn next_condition(
    alloc: Global,
    i: usize,
    all: Expression,
    pair: (u32, bool),
) -> Result<Expression, Memory>
    ensures { IfOk result (λ e. tree_of e ≡ next_clock i (tree_of all) pair.0 pair.1) }
{
    let one = condition(alloc, pair.0, pair.1)?;
    if i == 0 {
        return Ok(one);
    }
    let all = Box::new(alloc, all)?;
    let one = Box::new(alloc, one)?;
    Ok(Expression::Join(Symbol::And, all, one))
}

fn joined(alloc: Global, steps: &[(u32, bool)]) -> Result<Expression, Memory>
    ensures { IfOk result (λ e. tree_of e ≡ clock_tree (reverse steps.now)) }
{
    let mut all = Expression::Truth(true);
    'steps: for (i, pair) in steps.iter().enumerate() {
        all = next_condition(alloc, i, all, *pair)?;
    }
    Ok(all)
}

/// Whether the conditions of a clock hold, as an expression over slots; those of the base clock always do.
///
/// # Errors
///
/// When memory is short.
pub fn clock_expression(alloc: Global, clock: &Clock) -> Result<Expression, Memory>
    ensures { IfOk result (λ e. tree_of e ≡ clock_tree clock.now) }
{
    joined(alloc, clock.steps.as_slice())
}
