// The functions that are reached, each made over those that it calls.

ghost use Rattle.std.specs.Prelude.{◌≡◌, ◌+◌, ◌<◌, ◌^◌, ℕ, None, Some, length, replicate, slice_set, IfOk, OnOk};
ghost use Rattle.std.specs.List.{All};
ghost use Rattle.lt_base.specs.Program.{GoodFunction};
ghost use Rattle.lt_base.specs.Checked.{EachUse, CheckedProgram};
ghost use Rattle.lt_base.specs.Calls.{CallsFunction};
ghost use Rattle.lt_expand.specs.Copies.{equations_grown, with_copies, expanded, expansion};
ghost use Rattle.lt_expand.specs.Expansion.{ProgramExpansion};
ghost use Rattle.lt_expand.specs.Walk.{NestsWithin, library_of, IsMade, Copyable, AreVersions, KeepsVersions};

use crate::function::open;
use lt_base::{Func, Memory, Program, Whole};
use lt_check::calls_of;
use std::alloc::Global;

// Nothing is made of that many functions.
fn none_made(alloc: Global, count: usize) -> Result<Vec<Option<Func>>, Memory>
    ensures { IfOk result (λ versions. versions.items ≡ replicate count None) }
{
    let mut versions = Vec::with_capacity(alloc, count)?;
    for _function in 0..count {
        versions.push(None)?;
    }
    Ok(versions)
}

// Makes one function over those that it calls.
fn make(alloc: Global, versions: &mut Vec<Option<Func>>, f: &Func, g: u32) -> Result<(), Memory>
    requires number { g < length versions.old.items }
    requires good { GoodFunction (with_copies (library_of versions.old.items) f.now) }
    requires ready { All (λ q. EachUse (λ h k. Copyable versions.old.items h k) q.1) f.now.eqs }
    requires room { length f.now.decls + equations_grown (library_of versions.old.items) f.now.eqs < 2 ^ 32 }
    ensures { OnOk result (versions.new.items ≡ slice_set versions.old.items g (Some (with_copies (library_of versions.old.items) f.now))) }
{
    let whole = open(alloc, versions, f)?;
    versions[g as usize] = Some(whole.func);
    Ok(())
}

// Makes the functions that a function calls, where fewer calls than that are nested in it, each once and after those that it
// calls.
fn make_called(
    alloc: Global,
    p: &Program,
    left: usize,
    versions: &mut Vec<Option<Func>>,
    g: u32,
) -> Result<(), Memory>
    requires checked { CheckedProgram p.now }
    requires number { g < length p.now.funcs }
    requires within { NestsWithin p.now.funcs left g }
    requires room { length (expanded p.now.funcs left g).decls < 2 ^ 32 }
    requires are { AreVersions p.now.funcs versions.old.items }
    ensures are { OnOk result (AreVersions p.now.funcs versions.new.items) }
    ensures kept { OnOk result (KeepsVersions versions.old.items versions.new.items) }
    ensures made { OnOk result ((h : ℕ) → CallsFunction p.now.funcs g h → IsMade versions.new.items h) }
{
    p.invariant_holds();
    let called = calls_of(alloc, &p.funcs[g as usize])?;
    for h in called.iter() {
        if versions[*h as usize].is_some() {
            continue;
        }
        make_called(alloc, p, left - 1, versions, *h)?;
        make(alloc, versions, &p.funcs[*h as usize], *h)?;
    }
    Ok(())
}

/// The expansion of a program. Only the functions that `main` reaches are made.
pub(crate) fn expand_main(alloc: Global, p: &Program) -> Result<Whole, Memory>
    requires checked { CheckedProgram p.now }
    requires room { length (expansion p.now).decls < 2 ^ 32 }
    ensures form { IfOk result (λ whole. whole.func ≡ expansion p.now) }
    ensures keeps { IfOk result (λ whole. ProgramExpansion p.now whole.func whole.origin) }
{
    p.invariant_holds();
    let count = p.funcs.len();
    let mut versions = none_made(alloc, count)?;
    make_called(alloc, p, count, &mut versions, p.main)?;
    let main = &p.funcs[p.main as usize];
    let whole = open(alloc, &versions, main)?;
    Ok(whole)
}
