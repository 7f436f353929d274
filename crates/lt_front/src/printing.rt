// The canonical text of a program that passes all checks, for which tree and program are never whole together.
ghost use Rattle.std.specs.Prelude.{◌≡◌, ◌<◌, ◌↔◌, ◌^◌, IfOk, IfSome, IsTrue, length};
ghost use Rattle.lt_base.specs.Dependence.{CausalProgram};
ghost use Rattle.lt_answer.specs.Answered.{Settles};
ghost use Rattle.lt_expand.specs.Expansion.{WithinLimits};
ghost use Rattle.lt_front.specs.Examined.{TreeNumbersFit};
ghost use Rattle.lt_front.specs.Printed.{IsOfTree, IsPassing, IsPassingText, printed_verdict};

use crate::causality::causality;
use lt_base::limits::{GREATEST_WEIGHT, MOST_PARTS};
use lt_base::{List, Memory, Or, Program};
use lt_check::{sizes, types_and_clocks};
use lt_print::print;
use lt_resolve::into_program;
use lt_syntax::{Tree, parse};
use std::alloc::Global;
use std::mem::forget;

/// The canonical text of the program of a text, if all checks pass. The tree is printed before its names are resolved, and then taken
/// apart.
pub fn print_passing(alloc: Global, bytes: &[u8]) -> Result<Option<List<u8>>, Memory>
    requires { length bytes.now < 2 ^ 32 }
    ensures { IfOk result (λ o. IfSome o (λ text. Settles (printed_verdict bytes.now) (Ok text))) }
{
    match parse(alloc, bytes) {
        Ok(tree) => passing_tree(alloc, tree),
        Err(Or::Fault(_)) => Ok(None),
        Err(Or::Memory) => Err(Memory),
    }
}

// The canonical text of a tree, if its program passes all checks.
fn passing_tree(alloc: Global, tree: Tree) -> Result<Option<List<u8>>, Memory>
    requires { TreeNumbersFit tree }
    ensures { IfOk result (λ o. IfSome o (IsPassingText tree)) }
{
    let text = print(alloc, &tree)?;
    match into_program(alloc, tree) {
        Ok(program) => passing_program(alloc, program, text),
        Err(Or::Fault(_)) => Ok(None),
        Err(Or::Memory) => Err(Memory),
    }
}

// The text, if the program passes the checks behind names.
fn passing_program(
    alloc: Global,
    program: Program,
    text: List<u8>,
) -> Result<Option<List<u8>>, Memory>
    requires { IsOfTree program }
    ensures { IfOk result (λ o. IfSome o (λ shown. IsPassing program × (shown ≡ text))) }
{
    let passes = passes(alloc, &program)?;
    // The call that prints is nearly over, and to take a large program apart takes time.
    forget(program);
    Ok(if passes { Some(text) } else { None })
}

// Whether a program passes the checks behind names.
fn passes(alloc: Global, p: &Program) -> Result<bool, Memory>
    requires { IsOfTree p.now }
    ensures { IfOk result (λ b. IsTrue b ↔ IsPassing p.now) }
{
    if !types_and_clocks(alloc, p)? {
        return Ok(false);
    }
    order_passes(alloc, p)
}

// Whether the causality and the sizes pass.
fn order_passes(alloc: Global, p: &Program) -> Result<bool, Memory>
    requires { IsOfTree p.now }
    ensures { IfOk result (λ b. IsTrue b ↔ (CausalProgram p.now × WithinLimits p.now)) }
{
    match causality(alloc, p) {
        Ok(()) => fits(alloc, p),
        Err(Or::Fault(_)) => Ok(false),
        Err(Or::Memory) => Err(Memory),
    }
}

// Whether the sizes are within their limits.
fn fits(alloc: Global, p: &Program) -> Result<bool, Memory>
    ensures { IfOk result (λ b. IsTrue b ↔ WithinLimits p.now) }
{
    let sizes = sizes(alloc, p)?;
    Ok(sizes.weight <= GREATEST_WEIGHT && sizes.parts <= MOST_PARTS)
}
