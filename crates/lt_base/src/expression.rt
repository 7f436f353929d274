// Expressions.

ghost use Rattle.std.specs.Prelude.{◌≡◌, ◌^◌, ◌-◌, IfOk, map, min};
ghost use Rattle.lt_base.specs.Expression.{shape, choose, parts};

use crate::{Bin, Imp, Memory, Un, Value};

/// An expression, in which variables and functions have numbers.
#[derive(Drop)]
pub enum Expr {
    Lit(Value),
    Var(u32),
    Un(Un, Box<Expr>),
    Bin(Bin, Box<Expr>, Box<Expr>),
    Imported(Imp, Box<Expr>, Box<Expr>),
    If(Box<Expr>, Box<Expr>, Box<Expr>),
    /// The values at the instants at which the variable has that truth value.
    When(Box<Expr>, u32, bool),
    /// The first where the variable is true, the second where it is false.
    Merge(u32, Box<Expr>, Box<Expr>),
    /// A delay that begins with a literal.
    Fby(Value, Box<Expr>),
    /// A delay that begins with what the left side has at the first instant.
    Follow(Box<Expr>, Box<Expr>),
    /// The left side at the first instant, and afterwards the right one.
    Arrow(Box<Expr>, Box<Expr>),
    Call(u32, Vec<Expr>),
}

impl Expr {
    /// The number of expression parts, cut at the greatest number.
    pub fn parts(&self) -> u64
        ensures { result ≡ min (parts (shape self.now)) (2 ^ 64 - 1) }
    {
        match self {
            Expr::Lit(_) => 1,
            Expr::Var(_) => 1,
            Expr::Un(_, a) => a.parts().saturating_add(1),
            Expr::Bin(_, a, b) => a.parts().saturating_add(b.parts()).saturating_add(1),
            Expr::Imported(_, a, b) => a.parts().saturating_add(b.parts()).saturating_add(1),
            Expr::If(c, a, b) => c
                .parts()
                .saturating_add(a.parts())
                .saturating_add(b.parts())
                .saturating_add(1),
            Expr::When(e, _, _) => e.parts().saturating_add(1),
            Expr::Merge(_, a, b) => a.parts().saturating_add(b.parts()).saturating_add(1),
            Expr::Fby(_, e) => e.parts().saturating_add(1),
            Expr::Follow(a, b) => a.parts().saturating_add(b.parts()).saturating_add(1),
            Expr::Arrow(a, b) => a.parts().saturating_add(b.parts()).saturating_add(1),
            Expr::Call(_, args) => {
                let mut sum = 1u64;
                for a in args {
                    sum = sum.saturating_add(a.parts());
                }
                sum
            }
        }
    }

    /// An equal expression.
    #[cycle(copying)]
    pub fn copy(&self) -> Result<Expr, Memory>
        ensures { IfOk result (λ r. shape r ≡ shape self.now) }
    {
        match self {
            Expr::Lit(v) => Ok(Expr::Lit(*v)),
            Expr::Var(x) => Ok(Expr::Var(*x)),
            Expr::Un(o, a) => match twin(a) {
                Ok(a) => Ok(Expr::Un(*o, a)),
                Err(memory) => Err(memory),
            },
            Expr::Bin(o, a, b) => match both(a, b) {
                Ok((a, b)) => Ok(Expr::Bin(*o, a, b)),
                Err(memory) => Err(memory),
            },
            Expr::Imported(o, a, b) => match both(a, b) {
                Ok((a, b)) => Ok(Expr::Imported(*o, a, b)),
                Err(memory) => Err(memory),
            },
            Expr::If(c, a, b) => choice(c, a, b),
            Expr::When(a, c, b) => match twin(a) {
                Ok(a) => Ok(Expr::When(a, *c, *b)),
                Err(memory) => Err(memory),
            },
            Expr::Merge(c, a, b) => match both(a, b) {
                Ok((a, b)) => Ok(Expr::Merge(*c, a, b)),
                Err(memory) => Err(memory),
            },
            Expr::Fby(v, a) => match twin(a) {
                Ok(a) => Ok(Expr::Fby(*v, a)),
                Err(memory) => Err(memory),
            },
            Expr::Follow(a, b) => match both(a, b) {
                Ok((a, b)) => Ok(Expr::Follow(a, b)),
                Err(memory) => Err(memory),
            },
            Expr::Arrow(a, b) => match both(a, b) {
                Ok((a, b)) => Ok(Expr::Arrow(a, b)),
                Err(memory) => Err(memory),
            },
            Expr::Call(g, args) => Ok(Expr::Call(*g, twins(args)?)),
        }
    }
}

// An equal expression in a box of its own.
#[cycle(copying)]
fn twin(e: &Box<Expr>) -> Result<Box<Expr>, Memory>
    ensures { IfOk result (λ r. shape r.value ≡ shape e.now.value) }
{
    Ok(Box::new(*Box::allocator(e), e.copy()?)?)
}

// A choice that is equal to that of these expressions.
#[cycle(copying)]
fn choice(c: &Box<Expr>, a: &Box<Expr>, b: &Box<Expr>) -> Result<Expr, Memory>
    ensures { IfOk result (λ r. shape r ≡ choose (shape c.now.value) (shape a.now.value) (shape b.now.value)) }
{
    let c = twin(c)?;
    let (a, b) = both(a, b)?;
    Ok(Expr::If(c, a, b))
}

// Two equal expressions, in boxes of their own.
#[cycle(copying)]
fn both(a: &Box<Expr>, b: &Box<Expr>) -> Result<(Box<Expr>, Box<Expr>), Memory>
    ensures { IfOk result (λ r. (shape r.0.value ≡ shape a.now.value) × (shape r.1.value ≡ shape b.now.value)) }
{
    let a = twin(a)?;
    Ok((a, twin(b)?))
}

// Equal expressions, one by one.
#[cycle(copying)]
fn twins(es: &Vec<Expr>) -> Result<Vec<Expr>, Memory>
    ensures { IfOk result (λ r. map shape r.items ≡ map shape es.now.items) }
{
    let mut copies = Vec::with_capacity(*es.allocator(), es.len())?;
    for e in es {
        copies.push(e.copy()?)?;
    }
    Ok(copies)
}
