// The checks of a program. Each is a step: it hands on what it was given, or refuses it by its first fault.
ghost use Rattle.std.specs.Prelude.{◌<◌, ◌^◌, length, IfOk};
ghost use Rattle.lt_base.specs.Clocking.{ClockedProgram};
ghost use Rattle.lt_base.specs.Dependence.{CausalProgram};
ghost use Rattle.lt_base.specs.Typing.{TypedProgram};
ghost use Rattle.lt_resolve.specs.Resolves.{IsResolved};
ghost use Rattle.lt_front.specs.Examined.{TreeNumbersFit};
ghost use Rattle.lt_answer.specs.Answered.{Settles};
ghost use Rattle.lt_front.specs.Front.{syntax_verdict, fits_verdict, IsTypeFault, IsClockFault, IsCycle};
ghost use Rattle.lt_front.specs.Steps.{HandsOn, named_verdict};

use crate::causality::causality;
use crate::refusals::{of_circle, of_clocks, of_names};
use crate::{Examined, Named, ProgramFault};
use lt_base::Or;
use lt_base::limits::{GREATEST_WEIGHT, MOST_PARTS};
use lt_check::{clocks, sizes, types};
use lt_resolve::resolve;
use lt_syntax::{Tree, parse};
use std::alloc::Global;

/// The tree that bytes spell.
pub fn parse_text(alloc: Global, bytes: &[u8]) -> Result<Tree, Or<ProgramFault>>
    requires { length bytes.now < 2 ^ 32 }
    ensures answered { Settles (syntax_verdict bytes.now) result }
    ensures room { IfOk result TreeNumbersFit }
{
    match parse(alloc, bytes) {
        Ok(tree) => Ok(tree),
        Err(e) => Err(e.map(ProgramFault::Syntax)),
    }
}

/// The program that a tree names, beside the tree.
pub fn resolve_names(alloc: Global, tree: Tree) -> Result<Named, Or<ProgramFault>>
    requires { TreeNumbersFit tree }
    ensures { Settles (named_verdict tree) result }
{
    match resolve(alloc, &tree) {
        Ok(program) => Ok(Named { tree, program }),
        Err(e) => Err(of_names(e, tree)),
    }
}

/// A program that is well typed.
pub fn check_types(named: Named) -> Result<Named, Or<ProgramFault>>
    requires { IsResolved named.tree named.program }
    ensures { Settles (HandsOn named (TypedProgram named.program) (IsTypeFault named.tree named.program)) result }
{
    match types(&named.program) {
        Ok(()) => Ok(named),
        Err(fault) => Err(Or::Fault(ProgramFault::Type(fault, named.tree))),
    }
}

/// A program whose expressions stand on their clocks.
pub fn check_clocks(alloc: Global, named: Named) -> Result<Named, Or<ProgramFault>>
    requires { IsResolved named.tree named.program }
    ensures { Settles (HandsOn named (ClockedProgram named.program) (IsClockFault named.tree named.program)) result }
{
    match clocks(alloc, &named.program) {
        Ok(()) => Ok(named),
        Err(e) => Err(of_clocks(e, named.tree)),
    }
}

/// A program in none of whose functions variables depend on each other.
pub fn check_causality(alloc: Global, named: Named) -> Result<Named, Or<ProgramFault>>
    requires { IsResolved named.tree named.program }
    ensures { Settles (HandsOn named (CausalProgram named.program) (IsCycle named.tree named.program)) result }
{
    match causality(alloc, &named.program) {
        Ok(()) => Ok(named),
        Err(e) => Err(of_circle(e, named.tree)),
    }
}

/// A program of bounded size, which with this has passed all checks.
pub fn check_sizes(alloc: Global, named: Named) -> Result<Examined, Or<ProgramFault>>
    requires resolved { IsResolved named.tree named.program }
    requires typed { TypedProgram named.program }
    requires clocked { ClockedProgram named.program }
    requires causal { CausalProgram named.program }
    ensures { Settles (fits_verdict named.tree named.program) result }
{
    let sizes = sizes(alloc, &named.program)?;
    if sizes.weight > GREATEST_WEIGHT || sizes.parts > MOST_PARTS {
        return Err(Or::Fault(ProgramFault::TooMany(sizes)));
    }
    Ok(Examined {
        tree: named.tree,
        program: named.program,
    })
}
