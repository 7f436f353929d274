// Copies of functions without calls.

ghost use Rattle.std.specs.Prelude.{◌≡◌, ◌+◌, ◌-◌, ◌<◌, ◌^◌, ◌++◌, length, map, All, IfOk, OnOk};
ghost use Rattle.lt_base.specs.Expression.{shape, arguments_of};
ghost use Rattle.lt_base.specs.Program.{VarsBelow};
ghost use Rattle.lt_base.specs.Calls.{EachCall};
ghost use Rattle.lt_expand.specs.Copies.{first_or_zero, copy_decls, copy_equations, input_equations};
ghost use Rattle.lt_expand.specs.Walk.{AddsCopy};

use crate::raised::{raise_variables, raised_decl};
use lt_base::{Clock, Decl, Equation, Expr, Func, List, Memory};

// Appends the declarations of a copy that begins at this number.
fn append_decls(
    decls: &mut Vec<Decl>,
    known: &List<Decl>,
    place: &Clock,
    first: u32,
) -> Result<(), Memory>
    requires { All (λ d. All (λ p. p.0 + first < 2 ^ 32) d.clock) known.now }
    ensures { OnOk result (decls.new.items ≡ decls.old.items ++ copy_decls first place.now known.now) }
{
    for decl in known.iter() {
        let copy = raised_decl(decl, place, first)?;
        decls.push(copy)?;
    }
    Ok(())
}

// Appends the equations of its inputs.
fn append_inputs(eqs: &mut Vec<Equation>, inputs: Vec<Expr>, first: u32) -> Result<(), Memory>
    requires { first + length inputs.items < 2 ^ 32 }
    ensures { OnOk result (eqs.new.items ≡ eqs.old.items ++ input_equations first (arguments_of (map shape inputs.items))) }
{
    let mut number = first;
    for input in inputs {
        eqs.push(Equation::new(number, input))?;
        number += 1;
    }
    Ok(())
}

// Appends the equations of the copied function.
fn append_equations(
    eqs: &mut Vec<Equation>,
    known: &List<Equation>,
    first: u32,
) -> Result<(), Memory>
    requires lefts { All (λ q. q.0 + first < 2 ^ 32) known.now }
    requires rights { All (λ q. VarsBelow (2 ^ 32 - first) q.1) known.now }
    requires callless { All (λ q. EachCall (λ g. ⊥) q.1) known.now }
    ensures { OnOk result (eqs.new.items ≡ eqs.old.items ++ copy_equations first known.now) }
{
    for equation in known.iter() {
        let right = raise_variables(equation.right(), first)?;
        eqs.push(Equation::new(equation.left() + first, right))?;
    }
    Ok(())
}

/// Appends a copy of a function without calls, on the clock of a call's place, whose inputs have these equations. Gives the number
/// of its output.
pub(crate) fn append_copy(
    decls: &mut Vec<Decl>,
    eqs: &mut Vec<Equation>,
    place: &Clock,
    source: &Func,
    inputs: Vec<Expr>,
) -> Result<u32, Memory>
    requires callless { All (λ q. EachCall (λ g. ⊥) q.1) source.now.eqs }
    requires arity { length inputs.items ≡ source.now.n_in }
    requires output { 0 < length source.now.outs }
    requires room { length decls.old.items + length source.now.decls < 2 ^ 32 }
    ensures output { IfOk result (λ y. y ≡ first_or_zero source.now.outs + length decls.old.items) }
    ensures adds { IfOk result (λ y. AddsCopy place.now source.now (map shape inputs.items) decls.old.items eqs.old.items decls.new.items eqs.new.items) }
{
    source.invariant_holds();
    let first = decls.len() as u32;
    append_decls(decls, &source.decls, place, first)?;
    append_inputs(eqs, inputs, first)?;
    append_equations(eqs, &source.eqs, first)?;
    Ok(source.outs[0] + first)
}
