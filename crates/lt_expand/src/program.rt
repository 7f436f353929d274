// The expansion of a program within its limits.

ghost use Rattle.std.specs.Prelude.{◌≡◌, IfOk, MatchResult};
ghost use Rattle.lt_base.specs.Or.{ForFault};
ghost use Rattle.lt_base.specs.Checked.{CheckedProgram};
ghost use Rattle.lt_expand.specs.Copies.{expansion};
ghost use Rattle.lt_expand.specs.Expansion.{ProgramExpansion, WithinLimits, IsTooMany};

use crate::library::expand_main;
use lt_base::limits::{GREATEST_WEIGHT, MOST_PARTS};
use lt_base::{Memory, Or, Program, Sizes, Whole};
use lt_check::sizes;
use std::alloc::Global;

/// A program is too large to be expanded, and these are its sizes.
#[derive(Clone, Copy, Debug, PartialEq, Eq, Drop)]
pub struct TooMany {
    pub needed: Sizes,
}

/// The expansion of a checked program: its main function, in which each call stands for a copy of what is made so of the called
/// function. The variables of `main` keep their numbers and their streams, and those of the copies come after them, equation by
/// equation and those of a call's arguments first. The sizes are computed before anything is copied, and only the functions that
/// `main` reaches are made.
pub fn expand(alloc: Global, p: &Program) -> Result<Whole, Or<TooMany>>
    requires { CheckedProgram p.now }
    ensures form { IfOk result (λ whole. whole.func ≡ expansion p.now) }
    ensures keeps { IfOk result (λ whole. ProgramExpansion p.now whole.func whole.origin) }
    ensures limit { MatchResult result (λ _. WithinLimits p.now) (λ e. ForFault e (λ fault. IsTooMany p.now fault.needed)) }
{
    let needed = sizes(alloc, p)?;
    if needed.weight > GREATEST_WEIGHT || needed.parts > MOST_PARTS {
        return Err(Or::Fault(TooMany { needed }));
    }
    let whole = expand_main(alloc, p)?;
    Ok(whole)
}

/// The expansion of a checked program that is within its limits, as `expand` answers it: no sizes are computed.
pub fn expand_within(alloc: Global, p: &Program) -> Result<Whole, Memory>
    requires checked { CheckedProgram p.now }
    requires within { WithinLimits p.now }
    ensures form { IfOk result (λ whole. whole.func ≡ expansion p.now) }
    ensures keeps { IfOk result (λ whole. ProgramExpansion p.now whole.func whole.origin) }
{
    expand_main(alloc, p)
}
