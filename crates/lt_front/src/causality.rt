// The causality of all functions of a program.
ghost use Rattle.std.specs.Prelude.{◌<◌, ◌^◌, MatchResult, length};
ghost use Rattle.std.specs.List.{All};
ghost use Rattle.lt_base.specs.Or.{ForFault};
ghost use Rattle.lt_base.specs.Dependence.{CausalProgram};
ghost use Rattle.lt_front.specs.Causality.{IsFirstCycle};

use crate::refusals::of_function;
use lt_base::{Or, Program};
use lt_cause::{Cycle, causal};
use std::alloc::Global;

/// A cycle in the function of this number.
#[derive(Drop)]
pub(crate) struct Circle {
    pub func: u32,
    pub cycle: Cycle,
}

/// Passes where no function's variables depend on each other; else the first such function, and how they do.
pub(crate) fn causality(alloc: Global, p: &Program) -> Result<(), Or<Circle>>
    requires functions { length p.now.funcs < 2 ^ 32 }
    requires variables { All (λ f. length f.decls < 2 ^ 32) p.now.funcs }
    requires equations { All (λ f. length f.eqs < 2 ^ 32) p.now.funcs }
    ensures { MatchResult result (λ _. CausalProgram p.now) (λ e. ForFault e (λ fault. IsFirstCycle p.now fault.func fault.cycle.vars)) }
{
    for (number, f) in p.funcs.iter().enumerate() {
        match causal(alloc, f) {
            Ok(_) => {}
            Err(e) => return Err(of_function(e, number as u32)),
        }
    }
    Ok(())
}
