// Right sides without their delays.

ghost use Rattle.std.specs.Prelude.{◌≡◌, ◌+◌, ◌<◌, ◌^◌, OnOk, length, true};
ghost use Rattle.lt_base.specs.Expression.{shape};
ghost use Rattle.lt_base.specs.Meaning.{clock_of};
ghost use Rattle.lt_norm.specs.Plain.{plain};
ghost use Rattle.lt_norm.specs.Lift.{right_delays};
ghost use Rattle.lt_norm.specs.Walk.{LiftsRight, is_delay};

use crate::lift::{Lifting, lift};
use crate::plain::make_plain;
use lt_base::{Clock, Decl, Expr, List, Memory};
use std::alloc::Global;

// Whether it is a delay with a literal.
fn is_delay(e: &Expr) -> bool
    ensures { result ≡ is_delay (shape e.now) }
{
    match e {
        Expr::Fby(_, _) => true,
        _ => false,
    }
}

// Lifts the delays out of the operand of a delay.
fn lift_operand(
    alloc: Global,
    into: &mut Lifting,
    clock: &Clock,
    e: &mut Expr,
) -> Result<(), Memory>
    requires delay { is_delay (shape e.old) ≡ true }
    requires room { length into.old.decls.items + right_delays (shape e.old) < 2 ^ 32 }
    ensures { OnOk result (LiftsRight clock.now (shape e.old) into.old into.new (shape e.new)) }
{
    match e {
        Expr::Fby(_, operand) => lift(alloc, into, clock, operand),
        _ => unreachable!(),
    }
}

// Lifts the delays out of a right side, of which one at the top stays.
fn lift_right(alloc: Global, into: &mut Lifting, clock: &Clock, e: &mut Expr) -> Result<(), Memory>
    requires { length into.old.decls.items + right_delays (shape e.old) < 2 ^ 32 }
    ensures { OnOk result (LiftsRight clock.now (shape e.old) into.old into.new (shape e.new)) }
{
    if is_delay(e) {
        lift_operand(alloc, into, clock, e)
    } else {
        lift(alloc, into, clock, e)
    }
}

/// Lifts the delays out of the right side of a variable's equation. New variables are declared after those so far.
pub(crate) fn lift_side(
    alloc: Global,
    known: &List<Decl>,
    into: &mut Lifting,
    variable: u32,
    side: &mut Expr,
) -> Result<(), Memory>
    requires left { variable < length known.now }
    requires room { length into.old.decls.items + right_delays (plain known.now (shape side.old)) < 2 ^ 32 }
    ensures { OnOk result (LiftsRight (clock_of known.now variable) (plain known.now (shape side.old)) into.old into.new (shape side.new)) }
{
    make_plain(alloc, known, side)?;
    let decl = &known[variable as usize];
    lift_right(alloc, into, &decl.clock, side)
}
