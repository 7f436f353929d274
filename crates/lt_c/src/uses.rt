// Which functions at the head are called.

ghost use Rattle.std.specs.Prelude.{◌≡◌};
ghost use Rattle.lt_c.specs.Tree.{nothing};
ghost use Rattle.lt_c.specs.Uses.{no_calls, negating, calling, calls_and, calls_of_tree, statement_calls};
ghost use Rattle.lt_c.specs.Views.{helper_of, tree_of, statement_of};

use crate::calls::Calls;
use crate::trees::{Action, Expression, Function};

/// No call.
pub fn no_calls() -> Calls
    ensures { result ≡ no_calls }
{
    Calls {
        negate: false,
        add: false,
        sub: false,
        mul: false,
        div: false,
        rest: false,
        min: false,
        max: false,
        gcd: false,
    }
}

/// A call of the function that negates.
pub fn negating() -> Calls
    ensures { result ≡ negating }
{
    let mut calls = no_calls();
    calls.negate = true;
    calls
}

/// A call of a function of two numbers.
pub fn calling(h: Function) -> Calls
    ensures { result ≡ calling (helper_of h) }
{
    let mut calls = no_calls();
    match h {
        Function::Add => calls.add = true,
        Function::Sub => calls.sub = true,
        Function::Mul => calls.mul = true,
        Function::Div => calls.div = true,
        Function::Mod => calls.rest = true,
        Function::Min => calls.min = true,
        Function::Max => calls.max = true,
        Function::Gcd => calls.gcd = true,
    }
    calls
}

/// The calls of both.
pub fn calls_and(a: Calls, b: Calls) -> Calls
    ensures { result ≡ calls_and a b }
{
    Calls {
        negate: a.negate | b.negate,
        add: a.add | b.add,
        sub: a.sub | b.sub,
        mul: a.mul | b.mul,
        div: a.div | b.div,
        rest: a.rest | b.rest,
        min: a.min | b.min,
        max: a.max | b.max,
        gcd: a.gcd | b.gcd,
    }
}

/// The calls in an expression.
pub fn calls_in(e: &Expression) -> Calls
    ensures { result ≡ calls_of_tree (tree_of e.now) }
{
    match e {
        Expression::Number(_) | Expression::Truth(_) | Expression::Var(_) => no_calls(),
        Expression::Negate(a) => calls_and(negating(), calls_in(a)),
        Expression::Call(h, a, b) => calls_and(calling(*h), calls_and(calls_in(a), calls_in(b))),
        Expression::Not(a) => calls_in(a),
        Expression::Join(_, a, b) => calls_and(calls_in(a), calls_in(b)),
        Expression::Choice(c, a, b) => calls_and(calls_in(c), calls_and(calls_in(a), calls_in(b))),
    }
}

/// The calls in a statement, beside those of the step of the part.
pub fn action_calls(s: &Action) -> Calls
    ensures { result ≡ statement_calls (statement_of nothing s.now) }
{
    match s {
        Action::Nothing | Action::Run => no_calls(),
        Action::Assign(_, e) => calls_in(e),
        Action::Branch(e, a, b) => calls_and(
            calls_in(e),
            calls_and(action_calls(a), action_calls(b)),
        ),
        Action::Both(a, b) => calls_and(action_calls(a), action_calls(b)),
        Action::Noted(_, a) => action_calls(a),
    }
}
