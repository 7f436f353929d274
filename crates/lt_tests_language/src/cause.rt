// Orders and cycles.

use crate::texts::{tell, tell_word};
use lt_base::{Func, Memory, Or, Program};
use lt_cause::causal;
use std::alloc::Global;

/// Tells the order of the equations of a program's only function, or the variables of its cycle.
pub fn tell_order(alloc: Global, line: &mut String, p: &Program) -> Result<(), Memory> {
    match p.funcs.as_slice() {
        [f] => tell_causal(alloc, line, f),
        _ => Err(Memory),
    }
}

fn tell_causal(alloc: Global, line: &mut String, f: &Func) -> Result<(), Memory> {
    if f.decls.len() > 64 || f.eqs.len() > 64 {
        return Err(Memory);
    }
    match causal(alloc, f) {
        Ok(order) => tell_numbers(line, "order", order.eqs.as_slice()),
        Err(Or::Fault(cycle)) => tell_numbers(line, "cycle", cycle.vars.as_slice()),
        Err(Or::Memory) => Err(Memory),
    }
}

fn tell_numbers(line: &mut String, word: &str, numbers: &[u32]) -> Result<(), Memory> {
    tell_word(line, word)?;
    tell(line, numbers)
}
