// What the variables of a function depend on.

ghost use Rattle.std.specs.Prelude.{◌≡◌, ◌<◌, ◌++◌, ◌^◌, IfOk, OnOk, length};
ghost use Rattle.lt_base.specs.Meaning.{clock_of};
ghost use Rattle.lt_base.specs.Dependence.{reads, clock_vars};
ghost use Rattle.lt_graph.specs.Tables.{IsTable};
ghost use Rattle.lt_cause.specs.Orders.{HasDependencies, HasEquationNumbers};

use lt_base::{Clock, Decl, Equation, Func, List, Memory, push_reads};
use std::alloc::Global;

/// Appends the variables of a clock, innermost first.
fn push_clock(clock: &Clock, to: &mut List<u32>) -> Result<(), Memory>
    ensures { OnOk result (to.new ≡ to.old ++ clock_vars clock.now) }
{
    for step in clock.steps.iter().rev() {
        to.push(step.0)?;
    }
    Ok(())
}

/// What the variable of an equation depends on.
fn depends_on(alloc: Global, decls: &List<Decl>, equation: &Equation) -> Result<List<u32>, Memory>
    requires { equation.now.0 < length decls.now }
    ensures { IfOk result (λ list. list ≡ reads equation.now.1 ++ clock_vars (clock_of decls.now equation.now.0)) }
{
    let mut list = List::new(alloc);
    push_reads(equation.right(), &mut list)?;
    push_clock(&decls[equation.left() as usize].clock, &mut list)?;
    Ok(list)
}

/// What each variable depends on.
pub fn dependencies(alloc: Global, f: &Func) -> Result<List<List<u32>>, Memory>
    ensures table { IfOk result (λ table. HasDependencies f.now table) }
    ensures inside { IfOk result (λ table. IsTable table) }
{
    let mut table = Vec::with_capacity(alloc, f.decls.len())?;
    for _variable in 0..f.decls.len() {
        table.push(List::new(alloc))?;
    }
    for equation in f.eqs.iter() {
        let list = depends_on(alloc, &f.decls, equation)?;
        table[equation.left() as usize] = list;
    }
    Ok(List::of(table))
}

/// The number of each variable's equation.
pub fn equation_numbers(alloc: Global, f: &Func) -> Result<Vec<Option<u32>>, Memory>
    requires { length f.now.eqs < 2 ^ 32 }
    ensures { IfOk result (λ table. HasEquationNumbers f.now table.items) }
{
    let mut table = Vec::with_capacity(alloc, f.decls.len())?;
    for _variable in 0..f.decls.len() {
        table.push(None)?;
    }
    for (number, equation) in f.eqs.iter().enumerate() {
        table[equation.left() as usize] = Some(number as u32);
    }
    Ok(table)
}
