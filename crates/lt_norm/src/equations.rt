// The normal form.

ghost use Rattle.std.specs.Prelude.{◌≡◌, ◌+◌, ◌<◌, ◌^◌, ◌++◌, ◌∷◌, [], ℕ, List as Items, get_or, length, All, IfOk, OnOk, sum_by};
ghost use Rattle.lt_base.specs.Expression.{Expression, shape};
ghost use Rattle.lt_base.specs.Meaning.{clock_of};
ghost use Rattle.lt_base.specs.Typing.{TypedFunction};
ghost use Rattle.lt_base.specs.Clocking.{ClockedFunction};
ghost use Rattle.lt_base.specs.Dependence.{Causal};
ghost use Rattle.lt_base.specs.Sizes.{cost, weight_with};
ghost use Rattle.lt_norm.specs.Plain.{plain};
ghost use Rattle.lt_norm.specs.Lift.{normal_form, right_delays};
ghost use Rattle.lt_norm.specs.NormalForm.{NormalFormOf};
ghost use Rattle.lt_norm.specs.Walk.{LiftsRight, HaveLifted};

use crate::flat::Flat;
use crate::lift::Lifting;
use crate::right::lift_side;
use lt_base::{Decl, Equation, Expr, Func, List, Memory, Whole};
use std::alloc::Global;

// The parts of a normal form: all declarations with the equations of the delays, the other equations, and the origins.
#[derive(Drop)]
struct Parts {
    lifting: Lifting,
    eqs: Vec<Equation>,
    origins: Vec<u32>,
}

// The right side of an equation.
fn right_of(equation: Equation) -> Expr
    ensures { shape result ≡ equation.1 }
{
    equation.right
}

// Lifts the delays out of the right side of an equation.
fn lift_out(
    alloc: Global,
    known: &List<Decl>,
    into: &mut Lifting,
    equation: Equation,
) -> Result<Expr, Memory>
    requires left { equation.0 < length known.now }
    requires room { length into.old.decls.items + right_delays (plain known.now equation.1) < 2 ^ 32 }
    ensures { IfOk result (λ r. LiftsRight (clock_of known.now equation.0) (plain known.now equation.1) into.old into.new (shape r)) }
{
    let left = equation.left();
    let mut right = right_of(equation);
    lift_side(alloc, known, into, left, &mut right)?;
    Ok(right)
}

// The variable of `main` from whose equation a variable arose.
fn owner_of(origin: &List<u32>, variable: u32) -> u32
    requires { variable < length origin.now }
    ensures { result ≡ get_or origin.now variable 0 }
{
    origin[variable as usize]
}

// Lifts the delays out of one equation more.
fn lift_equation(
    alloc: Global,
    known: &List<Decl>,
    origin: &List<u32>,
    equation: Equation,
    parts: &mut Parts,
) -> Result<(), Memory>
    requires left { equation.0 < length known.now }
    requires origins { length origin.now ≡ length known.now }
    requires room { length parts.old.lifting.decls.items + right_delays (plain known.now equation.1) < 2 ^ 32 }
    ensures { (before : Items (ℕ × Expression)) → HaveLifted known.now origin.now before parts.old
        → OnOk result (HaveLifted known.now origin.now (before ++ equation ∷ []) parts.new) }
{
    let left = equation.left();
    let right = lift_out(alloc, known, &mut parts.lifting, equation)?;
    parts.eqs.push(Equation::new(left, right))?;
    let owner = owner_of(origin, left);
    parts.origins.resize(parts.lifting.decls.len(), owner)?;
    Ok(())
}

// The parts before the first equation, with room for so many.
fn empty_parts(
    alloc: Global,
    known: &List<Decl>,
    origin: &List<u32>,
    equations: usize,
) -> Result<Parts, Memory>
    ensures { IfOk result (HaveLifted known.now origin.now []) }
{
    let decls = known.copy()?.into_vec();
    let origins = origin.copy()?.into_vec();
    let eqs = Vec::with_capacity(alloc, equations)?;
    Ok(Parts {
        lifting: Lifting {
            decls,
            delays: Vec::new(alloc),
        },
        eqs,
        origins,
    })
}

// Lifts the delays out of these equations.
fn lift_equations(
    alloc: Global,
    known: &List<Decl>,
    equations: List<Equation>,
    origin: &List<u32>,
) -> Result<Parts, Memory>
    requires lefts { All (λ q. q.0 < length known.now) equations }
    requires origins { length origin.now ≡ length known.now }
    requires room { length known.now + sum_by (λ q. cost 1 (λ _. 0) q.1) equations < 2 ^ 32 }
    ensures { IfOk result (HaveLifted known.now origin.now equations) }
{
    let mut parts = empty_parts(alloc, known, origin, equations.len())?;
    for equation in equations.into_vec() {
        lift_equation(alloc, known, origin, equation, &mut parts)?;
    }
    Ok(parts)
}

/// The normal form of a function without calls. Each delay inside an expression becomes the equation of a variable of its own, on
/// the clock of its place; a `fby` without a literal and `->` become a choice by a flag, which is `true fby false` on that clock.
/// A delay with a literal at the top of a right side stays where it is. The variables of the function keep their numbers, and the
/// new ones come after them, equation by equation and inner delays first; they have no names.
pub fn normal(alloc: Global, w: &Whole) -> Result<Flat, Memory>
    requires typed { TypedFunction [] w.now.func }
    requires clocked { ClockedFunction [] w.now.func }
    requires causal { Causal w.now.func }
    requires origins { length w.now.origin ≡ length w.now.func.decls }
    requires room { weight_with (λ _. 0) w.now.func < 2 ^ 32 }
    ensures form { IfOk result (λ flat. flat.func ≡ normal_form w.now.func) }
    ensures keeps { IfOk result (λ flat. NormalFormOf w.now.func w.now.origin flat.func flat.origin) }
{
    let twin = w.copy()?;
    into_normal(alloc, twin)
}

/// The normal form of a function that is not needed again: right sides stay where they are.
pub fn into_normal(alloc: Global, w: Whole) -> Result<Flat, Memory>
    requires typed { TypedFunction [] w.func }
    requires clocked { ClockedFunction [] w.func }
    requires causal { Causal w.func }
    requires origins { length w.origin ≡ length w.func.decls }
    requires room { weight_with (λ _. 0) w.func < 2 ^ 32 }
    ensures form { IfOk result (λ flat. flat.func ≡ normal_form w.func) }
    ensures keeps { IfOk result (λ flat. NormalFormOf w.func w.origin flat.func flat.origin) }
{
    let Whole { func, origin } = w;
    let Func {
        name,
        decls: known,
        n_in,
        outs,
        eqs,
    } = func;
    let lifted = lift_equations(alloc, &known, eqs, &origin)?;
    let Parts {
        lifting,
        mut eqs,
        origins,
    } = lifted;
    let Lifting { decls, mut delays } = lifting;
    eqs.append(&mut delays)?;
    let func = Func::new(name, List::of(decls), n_in, outs, List::of(eqs));
    Ok(Flat::new(func, List::of(origins)))
}
