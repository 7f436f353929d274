// Calls replaced by copies of what is made for the called functions.

ghost use Rattle.std.specs.Prelude.{◌≡◌, ◌+◌, ◌<◌, ◌^◌, ◌∷◌, length, map, IfOk, OnOk};
ghost use Rattle.lt_base.specs.declared.expression.Expr.{Call};
ghost use Rattle.lt_base.specs.Expression.{shape, variable};
ghost use Rattle.lt_base.specs.Checked.{EachUse};
ghost use Rattle.lt_base.specs.Meaning.{clock_of, outer as outer_pairs};
ghost use Rattle.lt_expand.specs.Copies.{first_or_zero, grown};
ghost use Rattle.lt_expand.specs.Walk.{library_of, IsMade, Copyable, AddsCopy, Inlines};

use crate::paste::append_copy;
use lt_base::{Clock, Decl, Equation, Expr, Func, List, Memory};
use std::alloc::Global;
use std::mem::replace;

/// All declarations so far, and the equations of the copies.
#[derive(Drop)]
pub(crate) struct Pasted {
    pub decls: Vec<Decl>,
    pub eqs: Vec<Equation>,
}

// What is made for a function.
fn version(versions: &[Option<Func>], g: u32) -> &Func
    requires { IsMade versions.now g }
    ensures { result.now ≡ library_of versions.now g }
{
    match &versions[g as usize] {
        Some(f) => f,
        None => unreachable!(),
    }
}

// Appends the copy for a call of this function, and gives the number of its output.
fn copy_for_call(
    versions: &[Option<Func>],
    into: &mut Pasted,
    place: &Clock,
    g: u32,
    inputs: Vec<Expr>,
) -> Result<u32, Memory>
    requires ready { Copyable versions.now g (length inputs.items) }
    requires room { length into.old.decls.items + length (library_of versions.now g).decls < 2 ^ 32 }
    ensures output { IfOk result (λ y. y ≡ first_or_zero (library_of versions.now g).outs + length into.old.decls.items) }
    ensures adds { IfOk result (λ y. AddsCopy place.now (library_of versions.now g) (map shape inputs.items)
        into.old.decls.items into.old.eqs.items into.new.decls.items into.new.eqs.items) }
{
    let source = version(versions, g);
    append_copy(&mut into.decls, &mut into.eqs, place, source, inputs)
}

/// Puts the output of a copy in place of each call in an expression. The copies are appended, those of a call's arguments first.
#[cycle(inlining)]
pub(crate) fn inline(
    alloc: Global,
    versions: &[Option<Func>],
    into: &mut Pasted,
    clock: &Clock,
    e: &mut Expr,
) -> Result<(), Memory>
    requires ready { EachUse (λ h k. Copyable versions.now h k) (shape e.old) }
    requires room { length into.old.decls.items + grown (library_of versions.now) (shape e.old) < 2 ^ 32 }
    ensures room { OnOk result (length into.new.decls.items ≡ length into.old.decls.items + grown (library_of versions.now) (shape e.old)) }
    ensures all { OnOk result (Inlines (library_of versions.now) clock.now (shape e.old) into.old into.new (shape e.new)) }
{
    match e {
        Expr::Lit(_) => Ok(()),
        Expr::Var(_) => Ok(()),
        Expr::Un(_, a) => inline(alloc, versions, into, clock, a),
        Expr::Fby(_, a) => inline(alloc, versions, into, clock, a),
        Expr::Bin(op, a, b) => {
            inline(alloc, versions, into, clock, a)?;
            inline(alloc, versions, into, clock, b)
        }
        Expr::Imported(op, a, b) => {
            inline(alloc, versions, into, clock, a)?;
            inline(alloc, versions, into, clock, b)
        }
        Expr::Follow(a, b) => {
            inline(alloc, versions, into, clock, a)?;
            inline(alloc, versions, into, clock, b)
        }
        Expr::Arrow(a, b) => {
            inline(alloc, versions, into, clock, a)?;
            inline(alloc, versions, into, clock, b)
        }
        Expr::If(c, a, b) => {
            inline(alloc, versions, into, clock, c)?;
            inline(alloc, versions, into, clock, a)?;
            inline(alloc, versions, into, clock, b)
        }
        Expr::When(a, _, _) => inline_outside(alloc, versions, into, clock, a),
        Expr::Merge(x, a, b) => {
            inline_branch(alloc, versions, into, clock, *x, true, a)?;
            inline_branch(alloc, versions, into, clock, *x, false, b)
        }
        Expr::Call(g, args) => {
            let y = inline_call(alloc, versions, into, clock, *g, args)?;
            *e = Expr::Var(y);
            Ok(())
        }
    }
}

// Puts copies in place of the calls of an expression, at the clock before the innermost pair.
#[cycle(inlining)]
fn inline_outside(
    alloc: Global,
    versions: &[Option<Func>],
    into: &mut Pasted,
    clock: &Clock,
    e: &mut Expr,
) -> Result<(), Memory>
    requires ready { EachUse (λ h k. Copyable versions.now h k) (shape e.old) }
    requires room { length into.old.decls.items + grown (library_of versions.now) (shape e.old) < 2 ^ 32 }
    ensures room { OnOk result (length into.new.decls.items ≡ length into.old.decls.items + grown (library_of versions.now) (shape e.old)) }
    ensures all { OnOk result (Inlines (library_of versions.now) (outer_pairs clock.now) (shape e.old) into.old into.new (shape e.new)) }
{
    let before = clock.outer()?;
    inline(alloc, versions, into, &before, e)
}

// The same in a branch of a merge, where the variable has that truth value.
#[cycle(inlining)]
fn inline_branch(
    alloc: Global,
    versions: &[Option<Func>],
    into: &mut Pasted,
    clock: &Clock,
    c: u32,
    polarity: bool,
    e: &mut Expr,
) -> Result<(), Memory>
    requires ready { EachUse (λ h k. Copyable versions.now h k) (shape e.old) }
    requires room { length into.old.decls.items + grown (library_of versions.now) (shape e.old) < 2 ^ 32 }
    ensures room { OnOk result (length into.new.decls.items ≡ length into.old.decls.items + grown (library_of versions.now) (shape e.old)) }
    ensures all { OnOk result (Inlines (library_of versions.now) ((c, polarity) ∷ clock.now) (shape e.old) into.old into.new (shape e.new)) }
{
    let branch = clock.inner(c, polarity)?;
    inline(alloc, versions, into, &branch, e)
}

// Appends the copies for a call and for the calls in its arguments, which it takes, and gives the number of the call's output.
#[cycle(inlining)]
fn inline_call(
    alloc: Global,
    versions: &[Option<Func>],
    into: &mut Pasted,
    clock: &Clock,
    g: u32,
    args: &mut Vec<Expr>,
) -> Result<u32, Memory>
    requires ready { EachUse (λ h k. Copyable versions.now h k) (shape (Call g args.old)) }
    requires room { length into.old.decls.items + grown (library_of versions.now) (shape (Call g args.old)) < 2 ^ 32 }
    ensures room { OnOk result (length into.new.decls.items ≡ length into.old.decls.items + grown (library_of versions.now) (shape (Call g args.old))) }
    ensures all { IfOk result (λ y. Inlines (library_of versions.now) clock.now (shape (Call g args.old)) into.old into.new (variable y)) }
{
    let taken = replace(args, Vec::new(alloc));
    let mut inputs = Vec::with_capacity(alloc, taken.len())?;
    for a in taken {
        let mut input = a;
        inline(alloc, versions, into, clock, &mut input)?;
        inputs.push(input)?;
    }
    let output = copy_for_call(versions, into, clock, g, inputs)?;
    Ok(output)
}

/// The right side of an equation with copies in place of its calls, on the clock of its variable.
pub(crate) fn inline_side(
    alloc: Global,
    versions: &[Option<Func>],
    known: &List<Decl>,
    into: &mut Pasted,
    equation: &Equation,
) -> Result<Expr, Memory>
    requires left { equation.now.0 < length known.now }
    requires ready { EachUse (λ h k. Copyable versions.now h k) equation.now.1 }
    requires room { length into.old.decls.items + grown (library_of versions.now) equation.now.1 < 2 ^ 32 }
    ensures { IfOk result (λ r. Inlines (library_of versions.now) (clock_of known.now equation.now.0) equation.now.1 into.old into.new (shape r)) }
{
    let decl = &known[equation.left() as usize];
    let mut right = equation.right().copy()?;
    inline(alloc, versions, into, &decl.clock, &mut right)?;
    Ok(right)
}
