// The faults that are looked for in one function after another.
ghost use Rattle.std.specs.Prelude.{◌≡◌, ◌<◌, ◌^◌, ◌-◌, None, IsOk, length, map};
ghost use Rattle.lt_resolve.specs.Scopes.{functions};
ghost use Rattle.lt_resolve.specs.Faults.{First, first_in, above, kind_number, no_main, functions_limit};
ghost use Rattle.lt_resolve.specs.Told.{TellsName, ShowsFault, Cleared, ChecksPass};
ghost use Rattle.lt_base.specs.Memory.{NeedsNoMemory};
ghost use Rattle.lt_resolve.specs.Uses.{all_delays};
ghost use Rattle.lt_resolve.specs.Checks.{found, check_kind, variables_limit, IsWhole, NeedsNoTable};

use crate::fault::{NameFault, NameKind};
use crate::scope::Scope;
use crate::tables::{Tables, locate_fault};
use lt_base::Or;
use std::alloc::Global;

/// What is looked for in a function.
#[derive(Clone, Copy)]
enum Check {
    NoEquation,
    TwoEquations,
    EquationForInput,
    Inputs,
    Outputs,
}

fn kind_of(check: Check) -> NameKind
    ensures { result ≡ check_kind check }
{
    match check {
        Check::NoEquation => NameKind::NoEquation,
        Check::TwoEquations => NameKind::TwoEquations,
        Check::EquationForInput => NameKind::EquationForInput,
        Check::Inputs | Check::Outputs => NameKind::Limit,
    }
}

/// Refuses a quantity above its limit, by its word.
fn within<'a>(limit: u64, quantity: u64, word: &'a str) -> Result<(), Or<&'a str>>
    ensures told { TellsName (above limit quantity word.now) result }
    ensures memory { NeedsNoMemory result }
{
    if quantity > limit {
        Err(Or::Fault(word))
    } else {
        Ok(())
    }
}

/// Refuses what the check finds in a function.
fn check_one<'a>(alloc: Global, check: Check, scope: &Scope<'a>) -> Result<(), Or<&'a str>>
    ensures told { TellsName (found check scope.now) result }
    ensures memory { NeedsNoTable check → NeedsNoMemory result }
{
    match check {
        Check::NoEquation => scope.no_equation(alloc),
        Check::TwoEquations => scope.two_equations(alloc),
        Check::EquationForInput => scope.input_equation(),
        Check::Inputs => within(64, scope.node().ins.len() as u64, "inputs"),
        Check::Outputs => within(64, scope.node().outs.len() as u64, "outputs"),
    }
}

/// Refuses what the check finds first.
fn check_all(alloc: Global, check: Check, tables: &Tables) -> Result<(), Or<NameFault>>
    requires { length tables.now < 2 ^ 32 }
    ensures shown { ShowsFault (check_kind check) (λ o. o ≡ first_in (λ _. found check) 0 tables.now) result }
    ensures fine { NeedsNoTable check → first_in (λ _. found check) 0 tables.now ≡ None → IsOk result }
{
    'scopes: for (i, scope) in tables.scopes().iter().enumerate() {
        match check_one(alloc, check, scope) {
            Ok(()) => {}
            Err(error) => return Err(locate_fault(alloc, kind_of(check), i, error)),
        }
    }
    Ok(())
}

/// Refuses the first fault of the check's kind.
fn pass(alloc: Global, check: Check, tables: &Tables) -> Result<(), Or<NameFault>>
    requires room { length tables.now < 2 ^ 32 }
    requires whole { IsWhole check }
    requires cleared { Cleared tables.now 2 (kind_number (check_kind check) - 1) }
    ensures passes { ChecksPass tables.now 2 (kind_number (check_kind check)) result }
    ensures fine { NeedsNoTable check → first_in (λ _. found check) 0 tables.now ≡ None → IsOk result }
{
    check_all(alloc, check, tables)
}

/// Refuses a tree without a function `main`.
fn has_main(alloc: Global, tables: &Tables) -> Result<(), Or<NameFault>>
    ensures shown { ShowsFault NameKind.NoMain (λ o. o ≡ no_main (functions tables.now)) result }
    ensures fine { no_main (functions tables.now) ≡ None → IsOk result }
{
    match tables.functions().check("main") {
        Ok(()) => Ok(()),
        Err(error) => Err(locate_fault(alloc, NameKind::NoMain, 0, error)),
    }
}

/// Refuses the first fault among those of single functions, and a tree without `main`.
pub fn check_functions(alloc: Global, tables: &Tables) -> Result<(), Or<NameFault>>
    requires { length tables.now < 2 ^ 32 }
    ensures { ChecksPass tables.now 2 6 result }
{
    pass(alloc, Check::NoEquation, tables)?;
    pass(alloc, Check::TwoEquations, tables)?;
    pass(alloc, Check::EquationForInput, tables)?;
    has_main(alloc, tables)
}

fn few_functions(alloc: Global, tables: &Tables) -> Result<(), Or<NameFault>>
    ensures shown { ShowsFault NameKind.Limit (λ o. o ≡ functions_limit tables.now) result }
    ensures fine { functions_limit tables.now ≡ None → IsOk result }
{
    match within(64, tables.scopes().len() as u64, "functions") {
        Ok(()) => Ok(()),
        Err(error) => Err(locate_fault(alloc, NameKind::Limit, 0, error)),
    }
}

/// Refuses the first function with too many variables and delays.
fn few_variables(alloc: Global, tables: &Tables, delays: &[u64]) -> Result<(), Or<NameFault>>
    requires room { length tables.now < 2 ^ 32 }
    requires delays { delays.now ≡ map (λ n. all_delays n.eqs) tables.now }
    ensures shown { ShowsFault NameKind.Limit (λ o. o ≡ first_in (λ _. variables_limit) 0 tables.now) result }
    ensures fine { first_in (λ _. variables_limit) 0 tables.now ≡ None → IsOk result }
{
    'scopes: for (i, scope) in tables.scopes().iter().enumerate() {
        match within(4096, scope.size(delays[i]), "variables") {
            Ok(()) => {}
            Err(error) => return Err(locate_fault(alloc, NameKind::Limit, i, error)),
        }
    }
    Ok(())
}

/// Refuses a quantity that passes its limit.
pub fn check_limits(alloc: Global, tables: &Tables, delays: &[u64]) -> Result<(), Or<NameFault>>
    requires room { length tables.now < 2 ^ 32 }
    requires delays { delays.now ≡ map (λ n. all_delays n.eqs) tables.now }
    requires cleared { Cleared tables.now 2 9 }
    ensures passes { ChecksPass tables.now 2 10 result }
    ensures fine { First tables.now NameKind.Limit None → IsOk result }
{
    few_functions(alloc, tables)?;
    few_variables(alloc, tables, delays)?;
    check_all(alloc, Check::Inputs, tables)?;
    check_all(alloc, Check::Outputs, tables)
}
