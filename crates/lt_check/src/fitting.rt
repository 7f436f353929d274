// Types and clocks together, where no fault is told.
ghost use Rattle.std.specs.Prelude.{◌<◌, ◌↔◌, ◌^◌, All, IfOk, IsTrue, length};
ghost use Rattle.lt_base.specs.Program.{GoodFunction};
ghost use Rattle.lt_check.specs.Fitting.{FitsVariable, HasGoodClocks, IsTypedAndClocked, IsRightProgram};

use crate::clocking::ill_formed;
use crate::innermost::{innermost_of, is_at};
use crate::typing::{int_clock, misfit};
use lt_base::{Decl, Equation, Func, List, Memory, Program};
use std::alloc::Global;

/// Whether the declared clocks of a function are well formed, with bools as their variables.
fn clocks_fit(alloc: Global, f: &Func) -> Result<bool, Memory>
    requires { length f.now.decls < 2 ^ 32 }
    ensures { IfOk result (λ b. IsTrue b ↔ HasGoodClocks f.now) }
{
    if let Some(_) = int_clock(f) {
        return Ok(false);
    }
    match ill_formed(alloc, f)? {
        Some(_) => Ok(false),
        None => Ok(true),
    }
}

/// Whether a right side has the type of its variable, and is at its clock.
fn equation_fits(funcs: &List<Func>, decls: &List<Decl>, equation: &Equation) -> bool
    requires { equation.now.0 < length decls.now }
    ensures { IsTrue result ↔ FitsVariable funcs.now decls.now equation.now }
{
    if let Some(_) = misfit(funcs, decls, equation) {
        return false;
    }
    let pair = innermost_of(decls, equation.left());
    is_at(funcs, decls, equation.right(), pair)
}

/// Whether the types and the clocks of a function are right.
fn function_fits(alloc: Global, funcs: &List<Func>, f: &Func) -> Result<bool, Memory>
    requires functions { All GoodFunction funcs.now }
    requires variables { length f.now.decls < 2 ^ 32 }
    ensures { IfOk result (λ b. IsTrue b ↔ IsTypedAndClocked funcs.now f.now) }
{
    if !clocks_fit(alloc, f)? {
        return Ok(false);
    }
    for equation in f.eqs.iter() {
        if !equation_fits(funcs, &f.decls, equation) {
            return Ok(false);
        }
    }
    Ok(true)
}

/// Whether the types and the clocks of a program are right. The two walks over an equation come one after the other, while it is in
/// the cache.
pub fn types_and_clocks(alloc: Global, p: &Program) -> Result<bool, Memory>
    requires { All (λ f. length f.decls < 2 ^ 32) p.now.funcs }
    ensures { IfOk result (λ b. IsTrue b ↔ IsRightProgram p.now) }
{
    for f in p.funcs.iter() {
        if !function_fits(alloc, &p.funcs, f)? {
            return Ok(false);
        }
    }
    Ok(true)
}
