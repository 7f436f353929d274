// What an expression reads within an instant.

ghost use Rattle.std.specs.Prelude.{◌≡◌, ◌++◌, OnOk, map};
ghost use Rattle.lt_base.specs.Expression.{shape, arguments_of};
ghost use Rattle.lt_base.specs.Dependence.{reads, arguments_reads};

use crate::{Expr, List, Memory};

/// Appends the variables that an expression reads outside the right side of every delay.
#[cycle(push_reads)]
pub fn push_reads(e: &Expr, to: &mut List<u32>) -> Result<(), Memory>
    ensures { OnOk result (to.new ≡ to.old ++ reads (shape e.now)) }
{
    match e {
        Expr::Lit(_) => Ok(()),
        Expr::Var(x) => to.push(*x),
        Expr::Un(_, a) => push_reads(a, to),
        Expr::Bin(_, a, b) => push_both(a, b, to),
        Expr::Imported(_, a, b) => push_both(a, b, to),
        Expr::If(c, a, b) => {
            push_reads(c, to)?;
            push_both(a, b, to)
        }
        Expr::When(e, c, _) => {
            push_reads(e, to)?;
            to.push(*c)
        }
        Expr::Merge(c, a, b) => {
            to.push(*c)?;
            push_both(a, b, to)
        }
        Expr::Fby(_, _) => Ok(()),
        Expr::Follow(a, _) => push_reads(a, to),
        Expr::Arrow(a, b) => push_both(a, b, to),
        Expr::Call(_, args) => push_each(args, to),
    }
}

// Appends those of one expression and then those of another.
#[cycle(push_reads)]
fn push_both(a: &Expr, b: &Expr, to: &mut List<u32>) -> Result<(), Memory>
    ensures { OnOk result (to.new ≡ to.old ++ reads (shape a.now) ++ reads (shape b.now)) }
{
    push_reads(a, to)?;
    push_reads(b, to)
}

// Appends those of each of these expressions.
#[cycle(push_reads)]
fn push_each(args: &[Expr], to: &mut List<u32>) -> Result<(), Memory>
    ensures { OnOk result (to.new ≡ to.old ++ arguments_reads (arguments_of (map shape args.now))) }
{
    for a in args {
        push_reads(a, to)?;
    }
    Ok(())
}
