// Each delay inside an expression becomes the equation of a variable of its own.

ghost use Rattle.std.specs.Prelude.{◌≡◌, ◌+◌, ◌<◌, ◌^◌, ◌++◌, ◌∷◌, [], ℕ, List as Items, length, IfOk, OnOk};
ghost use Rattle.lt_base.specs.declared.function.Decl.{Decl as OneDecl};
ghost use Rattle.lt_base.specs.Expression.{Expression, shape, variable};
ghost use Rattle.lt_base.specs.Meaning.{outer as outer_pairs};
ghost use Rattle.lt_base.specs.Value.{ty_of};
ghost use Rattle.lt_norm.specs.Lift.{delays};
ghost use Rattle.lt_norm.specs.Walk.{Lifts, LiftedTo};

use crate::kinds::type_of_value;
use lt_base::{Clock, Decl, Equation, Expr, Memory, Name, Value};
use std::alloc::Global;
use std::mem::replace;

/// All declarations so far, and the equations of the lifted delays.
#[derive(Drop)]
pub(crate) struct Lifting {
    pub decls: Vec<Decl>,
    pub delays: Vec<Equation>,
}

// The declaration of a variable without a name.
fn nameless(alloc: Global, clock: Clock, first: Value) -> Decl
    ensures { result ≡ record { name = []; ty = ty_of first; clock = clock } }
{
    Decl {
        name: Name::of(String::new(alloc)),
        ty: type_of_value(first),
        clock,
    }
}

// The same, on a clock that is needed again.
fn nameless_on(alloc: Global, clock: &Clock, first: Value) -> Result<Decl, Memory>
    ensures { IfOk result (λ decl. decl ≡ record { name = []; ty = ty_of first; clock = clock.now }) }
{
    let clock = clock.copy()?;
    Ok(nameless(alloc, clock, first))
}

// Declares a variable without a name whose equation is this delay, and puts the variable in the delay's place.
fn name(
    alloc: Global,
    into: &mut Lifting,
    clock: &Clock,
    first: Value,
    delay: &mut Expr,
) -> Result<(), Memory>
    requires { length into.old.decls.items + 1 < 2 ^ 32 }
    ensures place { OnOk result (shape delay.new ≡ variable (length into.old.decls.items)) }
    ensures decls { OnOk result (into.new.decls.items ≡ into.old.decls.items ++ record { name = []; ty = ty_of first; clock = clock.now } ∷ []) }
    ensures delays { OnOk result (into.new.delays.items ≡ into.old.delays.items ++ (length into.old.decls.items, shape delay.old) ∷ []) }
{
    let number = into.decls.len() as u32;
    let decl = nameless_on(alloc, clock, first)?;
    into.decls.push(decl)?;
    let right = replace(delay, Expr::Var(number));
    into.delays.push(Equation::new(number, right))?;
    Ok(())
}

/// Puts a variable in place of each delay with a literal in an expression. These variables are declared after those so far, on the
/// clocks of their places.
#[cycle(lift)]
pub(crate) fn lift(
    alloc: Global,
    into: &mut Lifting,
    clock: &Clock,
    e: &mut Expr,
) -> Result<(), Memory>
    requires { length into.old.decls.items + delays (shape e.old) < 2 ^ 32 }
    ensures room { OnOk result (length into.new.decls.items ≡ length into.old.decls.items + delays (shape e.old)) }
    ensures all { OnOk result (Lifts clock.now (shape e.old) into.old into.new (shape e.new)) }
{
    match e {
        Expr::Lit(_) => Ok(()),
        Expr::Var(_) => Ok(()),
        Expr::Follow(_, _) => Ok(()),
        Expr::Arrow(_, _) => Ok(()),
        Expr::Call(_, _) => Ok(()),
        Expr::Un(_, a) => lift(alloc, into, clock, a),
        Expr::Bin(op, a, b) => lift_two(alloc, into, clock, a, b),
        Expr::Imported(op, a, b) => lift_two(alloc, into, clock, a, b),
        Expr::If(c, a, b) => {
            lift(alloc, into, clock, c)?;
            lift_two(alloc, into, clock, a, b)
        }
        Expr::When(a, _, _) => lift_outside(alloc, into, clock, a),
        Expr::Merge(x, a, b) => {
            lift_branch(alloc, into, clock, *x, true, a)?;
            lift_branch(alloc, into, clock, *x, false, b)
        }
        Expr::Fby(first, a) => {
            let first = *first;
            lift(alloc, into, clock, a)?;
            name(alloc, into, clock, first, e)
        }
    }
}

// The same in two expressions.
#[cycle(lift)]
fn lift_two(
    alloc: Global,
    into: &mut Lifting,
    clock: &Clock,
    a: &mut Expr,
    b: &mut Expr,
) -> Result<(), Memory>
    requires { length into.old.decls.items + (delays (shape a.old) + delays (shape b.old)) < 2 ^ 32 }
    ensures room { OnOk result (length into.new.decls.items ≡ length into.old.decls.items + (delays (shape a.old) + delays (shape b.old))) }
    ensures all { OnOk result ((decls : Items OneDecl) × (eqs : Items (ℕ × Expression))
        × LiftedTo clock.now (shape a.old) into.old.decls.items into.old.delays.items decls eqs (shape a.new)
        × LiftedTo clock.now (shape b.old) decls eqs into.new.decls.items into.new.delays.items (shape b.new)) }
{
    lift(alloc, into, clock, a)?;
    lift(alloc, into, clock, b)
}

// The same at the clock without its innermost pair.
#[cycle(lift)]
fn lift_outside(
    alloc: Global,
    into: &mut Lifting,
    clock: &Clock,
    e: &mut Expr,
) -> Result<(), Memory>
    requires { length into.old.decls.items + delays (shape e.old) < 2 ^ 32 }
    ensures room { OnOk result (length into.new.decls.items ≡ length into.old.decls.items + delays (shape e.old)) }
    ensures all { OnOk result (Lifts (outer_pairs clock.now) (shape e.old) into.old into.new (shape e.new)) }
{
    let before = clock.outer()?;
    let lifted = lift(alloc, into, &before, e);
    drop(before);
    lifted
}

// The same in a branch of a merge, where the variable has that truth value.
#[cycle(lift)]
fn lift_branch(
    alloc: Global,
    into: &mut Lifting,
    clock: &Clock,
    variable: u32,
    polarity: bool,
    e: &mut Expr,
) -> Result<(), Memory>
    requires { length into.old.decls.items + delays (shape e.old) < 2 ^ 32 }
    ensures room { OnOk result (length into.new.decls.items ≡ length into.old.decls.items + delays (shape e.old)) }
    ensures all { OnOk result (Lifts ((variable, polarity) ∷ clock.now) (shape e.old) into.old into.new (shape e.new)) }
{
    let at = clock.inner(variable, polarity)?;
    let lifted = lift(alloc, into, &at, e);
    drop(at);
    lifted
}
