// What stands in a part, under the part's own numbers.

ghost use Rattle.std.specs.Prelude.{◌≡◌, ◌<◌, [], All, IfOk, length, map, filter, get_or};
ghost use Rattle.lt_base.specs.Expression.{shape};
ghost use Rattle.lt_base.specs.Program.{VarsBelow};
ghost use Rattle.lt_base.specs.Calls.{EachCall};
ghost use Rattle.lt_base.specs.Placed.{renamed, below};
ghost use Rattle.lt_place.specs.Spread.{no_decl, own_of, own_decl, own_equation, stays};

use lt_base::{Clock, Decl, Equation, Expr, Memory};
use std::alloc::Global;

// Gives the variables of an expression without calls these numbers.
#[cycle(renumber)]
fn renumber(own: &[u32], e: &mut Expr)
    requires callless { EachCall (λ g. ⊥) (shape e.old) }
    requires inside { VarsBelow (length own.now) (shape e.old) }
    ensures { shape e.new ≡ renamed (own_of own.now) (shape e.old) }
{
    match e {
        Expr::Lit(_) => {}
        Expr::Var(x) => *x = own[*x as usize],
        Expr::Un(_, a) => renumber(own, a),
        Expr::When(a, x, _) => {
            *x = own[*x as usize];
            renumber(own, a);
        }
        Expr::Merge(x, a, b) => {
            *x = own[*x as usize];
            renumber_both(own, a, b);
        }
        Expr::Fby(_, a) => renumber(own, a),
        Expr::Bin(_, a, b) => renumber_both(own, a, b),
        Expr::Imported(_, a, b) => renumber_both(own, a, b),
        Expr::Follow(a, b) => renumber_both(own, a, b),
        Expr::Arrow(a, b) => renumber_both(own, a, b),
        Expr::If(c, a, b) => {
            renumber(own, c);
            renumber_both(own, a, b);
        }
        Expr::Call(_, _) => unreachable!(),
    }
}

// Gives those of two expressions these numbers.
#[cycle(renumber)]
fn renumber_both(own: &[u32], a: &mut Expr, b: &mut Expr)
    requires left_callless { EachCall (λ g. ⊥) (shape a.old) }
    requires right_callless { EachCall (λ g. ⊥) (shape b.old) }
    requires left_inside { VarsBelow (length own.now) (shape a.old) }
    requires right_inside { VarsBelow (length own.now) (shape b.old) }
    ensures left { shape a.new ≡ renamed (own_of own.now) (shape a.old) }
    ensures right { shape b.new ≡ renamed (own_of own.now) (shape b.old) }
{
    renumber(own, a);
    renumber(own, b);
}

// An expression without calls, with these numbers for its variables.
fn own_right(own: &[u32], e: &Expr) -> Result<Expr, Memory>
    requires callless { EachCall (λ g. ⊥) (shape e.now) }
    requires inside { VarsBelow (length own.now) (shape e.now) }
    ensures { IfOk result (λ r. shape r ≡ renamed (own_of own.now) (shape e.now)) }
{
    let mut right = e.copy()?;
    renumber(own, &mut right);
    Ok(right)
}

/// The clock with these numbers for its variables.
fn own_clock(alloc: Global, own: &[u32], clock: &Clock) -> Result<Clock, Memory>
    requires { All (λ p. p.0 < length own.now) clock.now }
    ensures { IfOk result (λ r. r ≡ below (own_of own.now) clock.now []) }
{
    let mut new = Clock::base(alloc);
    for step in clock.steps.iter() {
        new = new.deeper(own[step.0 as usize], step.1)?;
    }
    Ok(new)
}

/// The declaration of a variable in a part.
fn own_decl(alloc: Global, own: &[u32], decl: &Decl) -> Result<Decl, Memory>
    requires { All (λ p. p.0 < length own.now) decl.now.clock }
    ensures { IfOk result (λ r. r ≡ own_decl own.now decl.now) }
{
    let clock = own_clock(alloc, own, &decl.clock)?;
    let name = decl.name.copy()?;
    Ok(Decl {
        name,
        ty: decl.ty,
        clock,
    })
}

/// The declarations of these variables in a part.
pub(crate) fn own_decls(
    alloc: Global,
    own: &[u32],
    decls: &[Decl],
    members: &[u32],
) -> Result<Vec<Decl>, Memory>
    requires clocks { All (λ d. All (λ p. p.0 < length own.now) d.clock) decls.now }
    requires inside { All (λ x. x < length decls.now) members.now }
    ensures { IfOk result (λ r. r.items ≡ map (λ x. own_decl own.now (get_or decls.now x no_decl)) members.now) }
{
    let mut new = Vec::with_capacity(alloc, members.len())?;
    for x in members {
        new.push(own_decl(alloc, own, &decls[*x as usize])?)?;
    }
    Ok(new)
}

// Whether an equation is one of node n that stays.
fn stays(nodes: &[u32], fed: &[bool], n: u32, equation: &Equation) -> bool
    requires left { equation.now.0 < length nodes.now }
    requires fed { length fed.now ≡ length nodes.now }
    ensures { result ≡ stays nodes.now fed.now n equation.now }
{
    let left = equation.left() as usize;
    nodes[left] == n && !fed[left]
}

/// The equations of node n that stay, in its part.
pub(crate) fn own_equations(
    alloc: Global,
    own: &[u32],
    nodes: &[u32],
    fed: &[bool],
    n: u32,
    equations: &[Equation],
) -> Result<Vec<Equation>, Memory>
    requires nodes { length nodes.now ≡ length own.now }
    requires fed { length fed.now ≡ length own.now }
    requires lefts { All (λ q. q.0 < length own.now) equations.now }
    requires callless { All (λ q. EachCall (λ g. ⊥) q.1) equations.now }
    requires rights { All (λ q. VarsBelow (length own.now) q.1) equations.now }
    ensures { IfOk result (λ r. r.items ≡ map (own_equation own.now) (filter (stays nodes.now fed.now n) equations.now)) }
{
    let mut new = Vec::new(alloc);
    for equation in equations {
        if stays(nodes, fed, n, equation) {
            let right = own_right(own, equation.right())?;
            new.push(Equation::new(own[equation.left() as usize], right))?;
        }
    }
    Ok(new)
}
