// Programs from their trees, faults of names, and limits on what a text declares.
ghost use Rattle.std.specs.Prelude.{◌<◌, ◌^◌, ⊤, length, All, MatchBool};
ghost use Rattle.lt_base.specs.Calls.{NotRecursive};

use crate::base::tell_copies;
use crate::cause::tell_order;
use crate::check::{tell_clocks, tell_sizes, tell_types};
use crate::fits::tell_fits;
use crate::texts::{tell, tell_word};
use lt_base::{Func, Memory, Or, Program};
use lt_resolve::{NameFault, resolve};
use lt_syntax::Tree;
use std::alloc::Global;

/// Past the greatest number of 32 bits.
const TOO_MANY: usize = 4_294_967_296;

fn few_variables(funcs: &[Func]) -> bool
    ensures { MatchBool result (All (λ f. length f.decls < 2 ^ 32) funcs.now) ⊤ }
{
    funcs.iter().all(|f| f.decls.len() < TOO_MANY)
}

fn few_equations(funcs: &[Func]) -> bool
    ensures { MatchBool result (All (λ f. length f.eqs < 2 ^ 32) funcs.now) ⊤ }
{
    funcs.iter().all(|f| f.eqs.len() < TOO_MANY)
}

/// Tells something of the program of a tree, or the fault of its names: its kind, the function, and the name.
pub fn tell_names(alloc: Global, line: &mut String, what: &str, tree: &Tree) -> Result<(), Memory> {
    if tree.nodes.len() > 1000 {
        return Err(Memory);
    }
    match resolve(alloc, tree) {
        Ok(p) => {
            let told = tell_resolved(alloc, line, what, &p);
            drop(p);
            told
        }
        Err(Or::Fault(fault)) => tell_fault(line, &fault),
        Err(Or::Memory) => Err(Memory),
    }
}

fn tell_fault(line: &mut String, fault: &NameFault) -> Result<(), Memory> {
    tell(line, fault.kind)?;
    tell(line, fault.func)?;
    tell_word(line, fault.name.as_str())
}

fn tell_resolved(alloc: Global, line: &mut String, what: &str, p: &Program) -> Result<(), Memory>
    requires { NotRecursive p.now.funcs }
{
    let funcs = p.funcs.as_slice();
    if funcs.len() >= TOO_MANY || !few_variables(funcs) || !few_equations(funcs) {
        return Err(Memory);
    }
    tell_of_program(alloc, line, what, p)
}

fn tell_of_program(alloc: Global, line: &mut String, what: &str, p: &Program) -> Result<(), Memory>
    requires calls { NotRecursive p.now.funcs }
    requires functions { length p.now.funcs < 2 ^ 32 }
    requires variables { All (λ f. length f.decls < 2 ^ 32) p.now.funcs }
    requires equations { All (λ f. length f.eqs < 2 ^ 32) p.now.funcs }
{
    if what == "names" {
        return tell_word(line, "a program");
    }
    if what == "order" {
        return tell_order(alloc, line, p);
    }
    if what == "types" {
        return tell_types(line, p);
    }
    if what == "clocks" {
        return tell_clocks(alloc, line, p);
    }
    tell_fitting(alloc, line, what, p)
}

// Whether a program is within its limits, its sizes, and its copies.
fn tell_fitting(alloc: Global, line: &mut String, what: &str, p: &Program) -> Result<(), Memory>
    requires calls { NotRecursive p.now.funcs }
    requires variables { All (λ f. length f.decls < 2 ^ 32) p.now.funcs }
{
    if what == "fits" {
        return tell_fits(alloc, line, p);
    }
    if what == "sizes" {
        return tell_sizes(alloc, line, p);
    }
    if what == "copies" {
        return tell_copies(alloc, line, p);
    }
    Err(Memory)
}
