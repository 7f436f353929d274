// What stands in a copy: numbers that are higher, and clocks below that of the call's place.

ghost use Rattle.std.specs.Prelude.{◌≡◌, ◌+◌, ◌-◌, ◌<◌, ◌^◌, All, IfOk};
ghost use Rattle.lt_base.specs.Expression.{shape};
ghost use Rattle.lt_base.specs.Program.{VarsBelow};
ghost use Rattle.lt_base.specs.Calls.{EachCall};
ghost use Rattle.lt_base.specs.Placed.{renamed, below};
ghost use Rattle.lt_expand.specs.Copies.{raise, copy_decl};

use lt_base::{Clock, Decl, Expr, Memory};

// Gives the variables of an expression without calls numbers that are that much higher.
fn raise(e: &mut Expr, by: u32)
    requires callless { EachCall (λ g. ⊥) (shape e.old) }
    requires room { VarsBelow (2 ^ 32 - by) (shape e.old) }
    ensures { shape e.new ≡ renamed (raise by) (shape e.old) }
{
    match e {
        Expr::Lit(_) => {}
        Expr::Var(x) => *x += by,
        Expr::Un(_, a) => raise(a, by),
        Expr::When(a, x, _) => {
            *x += by;
            raise(a, by);
        }
        Expr::Merge(x, a, b) => {
            *x += by;
            raise(a, by);
            raise(b, by);
        }
        Expr::Fby(_, a) => raise(a, by),
        Expr::Bin(_, a, b) => {
            raise(a, by);
            raise(b, by);
        }
        Expr::Imported(_, a, b) => {
            raise(a, by);
            raise(b, by);
        }
        Expr::Follow(a, b) => {
            raise(a, by);
            raise(b, by);
        }
        Expr::Arrow(a, b) => {
            raise(a, by);
            raise(b, by);
        }
        Expr::If(c, a, b) => {
            raise(c, by);
            raise(a, by);
            raise(b, by);
        }
        Expr::Call(_, _) => unreachable!(),
    }
}

/// An expression without calls, with numbers for its variables that are that much higher.
pub(crate) fn raise_variables(e: &Expr, by: u32) -> Result<Expr, Memory>
    requires callless { EachCall (λ g. ⊥) (shape e.now) }
    requires room { VarsBelow (2 ^ 32 - by) (shape e.now) }
    ensures { IfOk result (λ r. shape r ≡ renamed (raise by) (shape e.now)) }
{
    let mut copy = e.copy()?;
    raise(&mut copy, by);
    Ok(copy)
}

// The clock of a variable of a copy: its own pairs, that much higher, below the clock of the call's place.
fn raised_clock(clock: &Clock, place: &Clock, by: u32) -> Result<Clock, Memory>
    requires { All (λ p. p.0 + by < 2 ^ 32) clock.now }
    ensures { IfOk result (λ r. r ≡ below (raise by) clock.now place.now) }
{
    let mut raised = place.copy()?;
    for step in clock.steps.iter() {
        raised = raised.deeper(step.0 + by, step.1)?;
    }
    Ok(raised)
}

/// The declaration of a variable of a copy.
pub(crate) fn raised_decl(decl: &Decl, place: &Clock, by: u32) -> Result<Decl, Memory>
    requires { All (λ p. p.0 + by < 2 ^ 32) decl.now.clock }
    ensures { IfOk result (λ r. r ≡ copy_decl by place.now decl.now) }
{
    let clock = raised_clock(&decl.clock, place, by)?;
    let name = decl.name.copy()?;
    Ok(Decl {
        name,
        ty: decl.ty,
        clock,
    })
}
