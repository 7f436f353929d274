// Expressions without `->`, and with a literal on the left of each `fby`.

ghost use Rattle.std.specs.Prelude.{◌≡◌, IfOk, OnOk};
ghost use Rattle.lt_base.specs.Expression.{shape, choose, delayed};
ghost use Rattle.lt_norm.specs.Plain.{begun, blank, first_flag, plain};

use crate::kinds::{blank, kind};
use lt_base::{Decl, Expr, List, Memory, Ty, Value};
use std::alloc::Global;
use std::mem::replace;

// `true fby false`
fn flag(alloc: Global) -> Result<Expr, Memory>
    ensures { IfOk result (λ r. shape r ≡ first_flag) }
{
    let operand = Box::new(alloc, Expr::Lit(Value::Bool(false)))?;
    Ok(Expr::Fby(Value::Bool(true), operand))
}

// The first side at the first instant, and afterwards the second.
fn first(alloc: Global, a: Box<Expr>, b: Box<Expr>) -> Result<Expr, Memory>
    ensures { IfOk result (λ r. shape r ≡ choose first_flag (shape a.value) (shape b.value)) }
{
    let flag = flag(alloc)?;
    Ok(Expr::If(Box::new(alloc, flag)?, a, b))
}

// What a side had at the instant before.
fn late(alloc: Global, ty: Ty, e: Box<Expr>) -> Result<Box<Expr>, Memory>
    ensures { IfOk result (λ r. shape r.value ≡ delayed (blank ty) (shape e.value)) }
{
    Ok(Box::new(alloc, Expr::Fby(blank(ty), e))?)
}

// The first side at the first instant, and afterwards the second, late by one.
fn follow_form(alloc: Global, ty: Ty, a: Box<Expr>, b: Box<Expr>) -> Result<Expr, Memory>
    ensures { IfOk result (λ r. shape r ≡ choose first_flag (shape a.value) (delayed (blank ty) (shape b.value))) }
{
    match late(alloc, ty, b) {
        Ok(late) => first(alloc, a, late),
        Err(memory) => {
            drop(a);
            Err(memory)
        }
    }
}

// The form of a `->`, or of a `fby` whose left side is no literal and has this type.
fn begin_form(alloc: Global, ty: Ty, e: Expr) -> Result<Expr, Memory>
    ensures { IfOk result (λ r. shape r ≡ begun ty (shape e)) }
{
    match e {
        Expr::Follow(a, b) => follow_form(alloc, ty, a, b),
        Expr::Arrow(a, b) => first(alloc, a, b),
        other => Ok(other),
    }
}

// Puts that form in its place.
fn begin(alloc: Global, ty: Ty, e: &mut Expr) -> Result<(), Memory>
    ensures { OnOk result (shape e.new ≡ begun ty (shape e.old)) }
{
    let whole = replace(e, Expr::Var(0));
    let form = begin_form(alloc, ty, whole)?;
    drop(replace(e, form));
    Ok(())
}

/// Puts flags of the first instant and delays with literals in place of `->` and of every other `fby`.
#[cycle(plain)]
pub(crate) fn make_plain(alloc: Global, known: &List<Decl>, e: &mut Expr) -> Result<(), Memory>
    ensures { OnOk result (shape e.new ≡ plain known.now (shape e.old)) }
{
    match e {
        Expr::Lit(_) => Ok(()),
        Expr::Var(_) => Ok(()),
        Expr::Call(_, _) => Ok(()),
        Expr::Un(_, a) => make_plain(alloc, known, a),
        Expr::When(a, _, _) => make_plain(alloc, known, a),
        Expr::Fby(_, a) => make_plain(alloc, known, a),
        Expr::Bin(_, a, b) => make_both_plain(alloc, known, a, b),
        Expr::Imported(_, a, b) => make_both_plain(alloc, known, a, b),
        Expr::Merge(_, a, b) => make_both_plain(alloc, known, a, b),
        Expr::If(c, a, b) => {
            make_plain(alloc, known, c)?;
            make_both_plain(alloc, known, a, b)
        }
        Expr::Follow(a, b) => {
            let ty = kind(known, a);
            make_both_plain(alloc, known, a, b)?;
            begin(alloc, ty, e)
        }
        Expr::Arrow(a, b) => {
            make_both_plain(alloc, known, a, b)?;
            begin(alloc, Ty::Int, e)
        }
    }
}

// The same of two expressions.
#[cycle(plain)]
fn make_both_plain(
    alloc: Global,
    known: &List<Decl>,
    a: &mut Expr,
    b: &mut Expr,
) -> Result<(), Memory>
    ensures left { OnOk result (shape a.new ≡ plain known.now (shape a.old)) }
    ensures right { OnOk result (shape b.new ≡ plain known.now (shape b.old)) }
{
    make_plain(alloc, known, a)?;
    make_plain(alloc, known, b)
}
