// Faults of types and of clocks, and sizes.
ghost use Rattle.std.specs.Prelude.{◌<◌, ◌^◌, length, All};

use crate::texts::{tell, tell_word};
use lt_base::{Memory, Or, Program};
use lt_check::{ClockFault, clocks, sizes, types};
use std::alloc::Global;

/// Tells the answer of the check of types.
pub fn tell_types(line: &mut String, p: &Program) -> Result<(), Memory>
    requires functions { length p.now.funcs < 2 ^ 32 }
    requires variables { All (λ f. length f.decls < 2 ^ 32) p.now.funcs }
{
    tell(line, types(p))
}

/// Tells the variable of the fault of clocks, the length of its clock and the number of its equation.
pub fn tell_clocks(alloc: Global, line: &mut String, p: &Program) -> Result<(), Memory>
    requires functions { length p.now.funcs < 2 ^ 32 }
    requires variables { All (λ f. length f.decls < 2 ^ 32) p.now.funcs }
    requires equations { All (λ f. length f.eqs < 2 ^ 32) p.now.funcs }
{
    match clocks(alloc, p) {
        Ok(()) => tell_word(line, "no fault"),
        Err(Or::Fault(fault)) => tell_fault(line, &fault),
        Err(Or::Memory) => Err(Memory),
    }
}

fn tell_fault(line: &mut String, fault: &ClockFault) -> Result<(), Memory> {
    tell(line, fault.var)?;
    tell(line, fault.want.steps.len())?;
    tell(line, fault.at)
}

/// Tells the sizes that are checked.
pub fn tell_sizes(alloc: Global, line: &mut String, p: &Program) -> Result<(), Memory> {
    match sizes(alloc, p) {
        Ok(sizes) => tell(line, sizes),
        Err(_) => Err(Memory),
    }
}
