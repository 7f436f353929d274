// From a tree to its program.
ghost use Rattle.std.specs.Prelude.{◌≡◌, ◌<◌, ◌^◌, Ok, Err, Some, length, MatchResult, IfOk};
ghost use Rattle.lt_base.specs.Or.{ForFault};
ghost use Rattle.lt_syntax.specs.Program.{IsSpelled};
ghost use Rattle.lt_resolve.specs.Names.{number_of_name};
ghost use Rattle.lt_resolve.specs.Named.{main, Named};
ghost use Rattle.lt_resolve.specs.Known.{HasNumber};
ghost use Rattle.lt_resolve.specs.Drafts.{AreDrafts};
ghost use Rattle.lt_resolve.specs.Faults.{First, NoOtherFault};
ghost use Rattle.lt_resolve.specs.Told.{Cleared, ChecksPass};
ghost use Rattle.lt_resolve.specs.Right.{IsRightTree};
ghost use Rattle.lt_resolve.specs.Resolves.{Resolves};

use crate::calls::check_calls;
use crate::checks::{check_functions, check_limits};
use crate::drafts::drafts;
use crate::fault::NameFault;
use crate::function::Draft;
use crate::names::Names;
use crate::tables::Tables;
use crate::taking::taken_program;
use crate::uses::uses_of;
use lt_base::{List, Memory, Or, Program};
use lt_syntax::Tree;
use std::alloc::Global;

/// The number of `main`.
pub fn main_of(functions: &Names) -> u32
    requires { HasNumber functions.now main }
    ensures { number_of_name functions.now main ≡ Some result }
{
    functions.number("main").unwrap()
}

/// The program of the drafts of a tree without a fault.
fn program(alloc: Global, tables: &Tables, drafts: Vec<Draft>) -> Result<Program, Memory>
    requires drafts { AreDrafts tables.now drafts.items }
    requires right { IsRightTree tables.now }
    ensures { IfOk result (λ p. Named tables.now p) }
{
    let mut funcs = Vec::with_capacity(alloc, drafts.len())?;
    'drafts: for draft in drafts {
        funcs.push(draft.function(alloc)?)?;
    }
    Ok(Program::new(List::of(funcs), main_of(tables.functions())))
}

/// Refuses the first fault of the kinds that come behind unknown names.
fn check_others(alloc: Global, tables: &Tables) -> Result<(), Or<NameFault>>
    requires { length tables.now < 2 ^ 32 }
    ensures { ChecksPass tables.now 2 10 result }
{
    let uses = uses_of(alloc, tables)?;
    check_functions(alloc, tables)?;
    check_calls(alloc, tables, &uses.calls)?;
    check_limits(alloc, tables, &uses.delays)
}

/// The program of the drafts of a tree, or the first fault of the kinds that come behind unknown names.
fn program_of_drafts(
    alloc: Global,
    tables: &Tables,
    drafts: Vec<Draft>,
) -> Result<Program, Or<NameFault>>
    requires room { length tables.now < 2 ^ 32 }
    requires spelled { IsSpelled tables.now }
    requires cleared { Cleared tables.now 0 2 }
    requires drafts { AreDrafts tables.now drafts.items }
    ensures { MatchResult result (λ p. Resolves tables.now (Ok p)) (λ e. ForFault e (λ f. Resolves tables.now (Err f))) }
{
    check_others(alloc, tables)?;
    Ok(program(alloc, tables, drafts)?)
}

/// The program of a tree in which no name is declared twice, or the tree's first fault.
fn program_of_tables(alloc: Global, tables: &Tables) -> Result<Program, Or<NameFault>>
    requires room { length tables.now < 2 ^ 32 }
    requires spelled { IsSpelled tables.now }
    requires cleared { Cleared tables.now 0 1 }
    ensures { MatchResult result (λ p. Resolves tables.now (Ok p)) (λ e. ForFault e (λ f. Resolves tables.now (Err f))) }
{
    let drafts = drafts(alloc, tables)?;
    program_of_drafts(alloc, tables, drafts)
}

/// The program of the tree, in which each name is replaced by the number of its declaration, or the tree's first fault.
/// The kinds of faults are tried in their order over the whole tree.
pub fn resolve(alloc: Global, t: &Tree) -> Result<Program, Or<NameFault>>
    // Functions are numbered by 32 bits.
    requires { length t.now < 2 ^ 32 }
    // The program where there is no fault, and else the first fault.
    ensures { MatchResult result (λ p. Resolves t.now (Ok p)) (λ e. ForFault e (λ f. Resolves t.now (Err f))) }
{
    t.invariant_holds();
    let tables = Tables::of(alloc, t)?;
    let program = program_of_tables(alloc, &tables);
    drop(tables);
    program
}

/// Refuses a fault of any kind but that of unknown names, if there is one. It need not be the first fault.
fn check_but_unknown(alloc: Global, t: &Tree) -> Result<(), Or<NameFault>>
    requires { length t.now < 2 ^ 32 }
    ensures { MatchResult result (λ _. NoOtherFault t.now) (λ e. ForFault e (λ f. First t.now f.kind (Some (f.func, f.name)))) }
{
    let tables = Tables::of(alloc, t)?;
    let checked = check_others(alloc, &tables);
    drop(tables);
    checked
}

/// The same as `resolve`, of a tree that is taken apart: each equation is dropped once it is one of the program, so that the two are
/// never whole together.
pub fn into_program(alloc: Global, t: Tree) -> Result<Program, Or<NameFault>>
    requires { length t < 2 ^ 32 }
    ensures { MatchResult result (λ p. Resolves t (Ok p)) (λ e. ForFault e (λ f. Resolves t (Err f))) }
{
    match check_but_unknown(alloc, &t) {
        Ok(()) => taken_program(alloc, t),
        // An unknown name may come before this fault.
        Err(Or::Fault(_)) => resolve(alloc, &t),
        Err(Or::Memory) => Err(Or::Memory),
    }
}
