// Expansions and normal forms, variable by variable.

use crate::answers::tell_value;
use lt_base::{Expr, Func, Memory, Whole};
use lt_expand::expand;
use lt_front::Checked;
use lt_norm::Flat;
use std::alloc::Global;

/// Tells something of `main` with its calls expanded.
pub fn tell_whole(
    alloc: Global,
    line: &mut String,
    checked: &Checked,
    what: &str,
) -> Result<(), Memory> {
    checked.invariant_holds();
    match expand(alloc, &checked.program) {
        Ok(whole) => {
            let told = tell_expanded(line, &whole, what);
            drop(whole);
            told
        }
        Err(_) => Err(Memory),
    }
}

fn tell_expanded(line: &mut String, whole: &Whole, what: &str) -> Result<(), Memory> {
    if what == "origins" {
        return tell_value(line, whole.origin.as_slice());
    }
    tell_function(line, &whole.func, what)
}

/// Tells something of a copy of a flat function.
pub fn tell_copy(line: &mut String, flat: &Flat, what: &str) -> Result<(), Memory> {
    match flat.copy() {
        Ok(copy) => {
            let told = tell_flat(line, &copy, what);
            drop(copy);
            told
        }
        Err(_) => Err(Memory),
    }
}

/// Tells something of a flat function.
pub fn tell_flat(line: &mut String, flat: &Flat, what: &str) -> Result<(), Memory> {
    if what == "origins" {
        return tell_value(line, flat.origin.as_slice());
    }
    tell_function(line, &flat.func, what)
}

// The clocks or the types of all variables, or the variables whose equation is a sum with a delay of their own.
fn tell_function(line: &mut String, function: &Func, what: &str) -> Result<(), Memory> {
    if what == "clocks" {
        return tell_clocks(line, function);
    }
    if what == "types" {
        return tell_types(line, function);
    }
    if what == "sums" {
        return tell_sums(line, function);
    }
    Err(Memory)
}

fn tell_clocks(line: &mut String, function: &Func) -> Result<(), Memory> {
    for decl in function.decls.as_slice() {
        tell_value(line, decl.clock.steps.as_slice())?;
    }
    Ok(())
}

fn tell_types(line: &mut String, function: &Func) -> Result<(), Memory> {
    for decl in function.decls.as_slice() {
        tell_value(line, decl.ty)?;
    }
    Ok(())
}

fn tell_sums(line: &mut String, function: &Func) -> Result<(), Memory> {
    for x in 0..function.decls.len() {
        if is_sum(function, x) {
            tell_value(line, x)?;
        }
    }
    Ok(())
}

// Whether a variable has an equation that is a sum with a delay of it.
fn is_sum(function: &Func, x: usize) -> bool {
    for equation in function.eqs.as_slice() {
        let left = equation.left();
        if left as usize == x && adds_delayed(equation.right(), left) {
            return true;
        }
    }
    false
}

// Whether an expression is a sum with a delay of this variable.
fn adds_delayed(e: &Expr, variable: u32) -> bool {
    match e {
        Expr::Bin(_, _, b) => match &**b {
            Expr::Fby(_, late) => matches!(&**late, Expr::Var(x) if *x == variable),
            _ => false,
        },
        _ => false,
    }
}
