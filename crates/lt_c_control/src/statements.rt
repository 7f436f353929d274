// Statements and expressions in boxes.

ghost use Rattle.std.specs.Prelude.{◌≡◌, IfOk};
ghost use Rattle.lt_c.specs.Tree.{Statement as Sentence, assign, branch, both, c_integer, c_var, c_join, o_eq, o_ne};
ghost use Rattle.lt_c.specs.Views.{place_in, viewed_operator, tree_of, statement_of};
ghost use Rattle.lt_c_control.specs.Control.{turned};

use lt_base::Memory;
use lt_c::{Action, Expression, Symbol, Variable};
use std::alloc::Global;

pub(crate) fn joined(
    alloc: Global,
    o: Symbol,
    a: Expression,
    b: Expression,
) -> Result<Expression, Memory>
    ensures { IfOk result (λ e. tree_of e ≡ c_join (viewed_operator o) (tree_of a) (tree_of b)) }
{
    let a = Box::new(alloc, a)?;
    let b = Box::new(alloc, b)?;
    Ok(Expression::Join(o, a, b))
}

pub(crate) fn then(alloc: Global, a: Action, b: Action) -> Result<Action, Memory>
    ensures { IfOk result (λ s. (run : Sentence) → statement_of run s ≡ both (statement_of run a) (statement_of run b)) }
{
    let a = Box::new(alloc, a)?;
    let b = Box::new(alloc, b)?;
    Ok(Action::Both(a, b))
}

pub(crate) fn either(alloc: Global, e: Expression, a: Action, b: Action) -> Result<Action, Memory>
    ensures { IfOk result (λ s. (run : Sentence) → statement_of run s ≡ branch (tree_of e) (statement_of run a) (statement_of run b)) }
{
    let a = Box::new(alloc, a)?;
    let b = Box::new(alloc, b)?;
    Ok(Action::Branch(e, a, b))
}

// Whether a variable is a number.
pub(crate) fn is_number(alloc: Global, p: Variable, n: i64) -> Result<Expression, Memory>
    ensures { IfOk result (λ e. tree_of e ≡ c_join o_eq (c_var (place_in p)) (c_integer n)) }
{
    joined(alloc, Symbol::Eq, Expression::Var(p), Expression::Number(n))
}

// A variable becomes a number.
pub(crate) fn becomes(p: Variable, n: i64) -> Action
    ensures { (run : Sentence) → statement_of run result ≡ assign (place_in p) (c_integer n) }
{
    Action::Assign(p, Expression::Number(n))
}

// A bit is turned.
pub(crate) fn turned(alloc: Global, p: Variable) -> Result<Action, Memory>
    ensures { IfOk result (λ s. (run : Sentence) → statement_of run s ≡ turned (place_in p)) }
{
    let e = Box::new(alloc, Expression::Var(p))?;
    Ok(Action::Assign(p, Expression::Not(e)))
}

// The bits of two variables differ.
pub(crate) fn differ(alloc: Global, p: Variable, q: Variable) -> Result<Expression, Memory>
    ensures { IfOk result (λ e. tree_of e ≡ c_join o_ne (c_var (place_in p)) (c_var (place_in q))) }
{
    joined(alloc, Symbol::Ne, Expression::Var(p), Expression::Var(q))
}

// A variable becomes what another is.
pub(crate) fn copied(p: Variable, q: Variable) -> Action
    ensures { (run : Sentence) → statement_of run result ≡ assign (place_in p) (c_var (place_in q)) }
{
    Action::Assign(p, Expression::Var(q))
}
