// Operands, and forms that are begun.
ghost use Rattle.std.specs.Prelude.{◌≡◌, ◌+◌, ◌<◌, ◌≤◌, ◌^◌, IfOk, map};
ghost use Rattle.lt_tokens.specs.Text.{greatest_number};
ghost use Rattle.lt_syntax.specs.Grammar.{joined, left_height};
ghost use Rattle.lt_syntax.specs.Machine as machine;
ghost use Rattle.lt_syntax.specs.Views.{frame_of, operand_of, tm_of, literal_value};

use crate::term::Term;
use lt_base::{Memory, Name, Un, Value};
use lt_tokens::Infix;
use std::alloc::Global;

/// A whole operand: its tree, the height of its text, and whether the text is a literal, which may have `-` before it.
#[derive(Drop)]
pub struct Operand {
    pub term: Box<Term>,
    pub height: u32,
    pub literal: bool,
}

/// A form that is begun, and waits for its next part.
#[derive(Drop)]
pub enum Frame {
    AfterMinus,
    AfterNot,
    InParen,
    AfterInfix(Infix, Operand),
    AfterIf,
    AfterThen(Operand),
    AfterElse(Operand, Operand),
    Sampling(Operand, bool),
    AfterMerge,
    FirstPart(Name),
    SecondPart(Name, Operand),
    InCall(Name, Vec<Term>, u32),
}

/// What must come: an operand, what follows a name or an operand, or a clock's variable.
#[derive(Drop)]
pub enum Mode {
    Want,
    Named(Name),
    Has(Operand),
    WantClock,
}

/// What a token does to an expression that is begun.
#[derive(Drop)]
pub enum Next {
    Bad,
    Go(Mode),
    Done(Operand),
}

pub fn number(alloc: Global, n: u64) -> Result<Operand, Memory>
    requires { n ≤ greatest_number }
    ensures { IfOk result (λ r. operand_of r ≡ machine.number_operand n) }
{
    Ok(Operand {
        term: Box::new(alloc, Term::Lit(Value::Int(n as i64)))?,
        height: 1,
        literal: true,
    })
}

pub fn truth(alloc: Global, b: bool) -> Result<Operand, Memory>
    ensures { IfOk result (λ r. operand_of r ≡ machine.truth_operand b) }
{
    Ok(Operand {
        term: Box::new(alloc, Term::Lit(Value::Bool(b)))?,
        height: 1,
        literal: true,
    })
}

pub fn variable(alloc: Global, x: Name) -> Result<Operand, Memory>
    ensures { IfOk result (λ r. operand_of r ≡ machine.name_operand x) }
{
    Ok(Operand {
        term: Box::new(alloc, Term::Var(x))?,
        height: 1,
        literal: false,
    })
}

/// A whole call with arguments of this height.
pub fn call(alloc: Global, f: Name, xs: Vec<Term>, h: u32) -> Result<Operand, Memory>
    requires { h + 2 < 2 ^ 32 }
    ensures { IfOk result (λ r. operand_of r ≡ machine.call_of f (map tm_of xs.items) h) }
{
    Ok(Operand {
        term: Box::new(alloc, Term::Call(f, xs))?,
        height: h.max(1) + 1,
        literal: false,
    })
}

/// The value of a number's literal with `-` before it.
fn negative(lead: Option<Value>) -> Option<Value>
    ensures { result ≡ machine.negative lead }
{
    match lead {
        Some(Value::Int(n)) if n >= 0 => Some(Value::Int(-n)),
        _ => None,
    }
}

/// The value of a term whose text is a literal.
fn value_of(t: &Term) -> Option<Value>
    ensures { result ≡ literal_value (tm_of t.now) }
{
    match t {
        Term::Lit(v) => Some(*v),
        Term::Un(Un::Neg, a) => negative(value_of(a)),
        _ => None,
    }
}

/// Its value, where its text is a literal.
fn lead(a: &Operand) -> Option<Value>
    ensures { result ≡ (operand_of a.now).lead }
{
    if a.literal { value_of(&a.term) } else { None }
}

fn after_minus(alloc: Global, b: Operand) -> Result<Operand, Memory>
    requires { (machine.complete machine.AfterMinus (operand_of b)).height < 2 ^ 32 }
    ensures { IfOk result (λ r. operand_of r ≡ machine.complete machine.AfterMinus (operand_of b)) }
{
    Ok(Operand {
        term: Box::new(alloc, Term::Un(Un::Neg, b.term))?,
        height: b.height + 1,
        literal: b.literal,
    })
}

fn after_not(alloc: Global, b: Operand) -> Result<Operand, Memory>
    requires { (machine.complete machine.AfterNot (operand_of b)).height < 2 ^ 32 }
    ensures { IfOk result (λ r. operand_of r ≡ machine.complete machine.AfterNot (operand_of b)) }
{
    Ok(Operand {
        term: Box::new(alloc, Term::Un(Un::Not, b.term))?,
        height: b.height + 1,
        literal: false,
    })
}

/// The height of a left side: a literal to the left of `fby` or `->` has 1.
pub fn left_height(o: Infix, a: &Operand) -> u32
    ensures { result ≡ left_height o (operand_of a.now).lead a.now.height }
{
    match o {
        Infix::Operator(_) => a.height,
        Infix::Fby | Infix::Arrow => { if lead(a).is_some() { 1 } else { a.height } }
    }
}

fn join_operands(alloc: Global, o: Infix, a: Operand, b: Box<Term>) -> Result<Term, Memory>
    ensures { IfOk result (λ r. tm_of r ≡ joined o (operand_of a).lead (tm_of a.term.value) (tm_of b.value)) }
{
    match o {
        Infix::Operator(bin) => Ok(Term::Bin(bin, a.term, b)),
        Infix::Fby => match lead(&a) {
            Some(value) => Ok(Term::Fby(value, b)),
            None => Ok(Term::Follow(a.term, b)),
        },
        Infix::Arrow => match lead(&a) {
            Some(value) => Ok(Term::Arrow(Box::new(alloc, Term::Lit(value))?, b)),
            None => Ok(Term::Arrow(a.term, b)),
        },
    }
}

fn after_infix(alloc: Global, o: Infix, a: Operand, b: Operand) -> Result<Operand, Memory>
    requires { (machine.complete (machine.AfterInfix o (operand_of a)) (operand_of b)).height < 2 ^ 32 }
    ensures { IfOk result (λ r. operand_of r ≡ machine.complete (machine.AfterInfix o (operand_of a)) (operand_of b)) }
{
    let height = left_height(o, &a).max(b.height) + 1;
    Ok(Operand {
        term: Box::new(alloc, join_operands(alloc, o, a, b.term)?)?,
        height,
        literal: false,
    })
}

fn after_else(alloc: Global, c: Operand, a: Operand, b: Operand) -> Result<Operand, Memory>
    requires { (machine.complete (machine.AfterElse (operand_of c) (operand_of a)) (operand_of b)).height < 2 ^ 32 }
    ensures { IfOk result (λ r. operand_of r ≡ machine.complete (machine.AfterElse (operand_of c) (operand_of a)) (operand_of b)) }
{
    let height = c.height.max(a.height).max(b.height) + 1;
    Ok(Operand {
        term: Box::new(alloc, Term::If(c.term, a.term, b.term))?,
        height,
        literal: false,
    })
}

fn second_part(alloc: Global, c: Name, a: Operand, b: Operand) -> Result<Operand, Memory>
    requires { (machine.complete (machine.SecondPart c (operand_of a)) (operand_of b)).height < 2 ^ 32 }
    ensures { IfOk result (λ r. operand_of r ≡ machine.complete (machine.SecondPart c (operand_of a)) (operand_of b)) }
{
    let height = a.height.max(b.height) + 1;
    Ok(Operand {
        term: Box::new(alloc, Term::Merge(c, a.term, b.term))?,
        height,
        literal: false,
    })
}

/// The form with its last part.
pub fn complete(alloc: Global, f: Frame, b: Operand) -> Result<Operand, Memory>
    requires { (machine.complete (frame_of f) (operand_of b)).height < 2 ^ 32 }
    ensures { IfOk result (λ r. operand_of r ≡ machine.complete (frame_of f) (operand_of b)) }
{
    match f {
        Frame::AfterMinus => after_minus(alloc, b),
        Frame::AfterNot => after_not(alloc, b),
        Frame::AfterInfix(o, a) => after_infix(alloc, o, a, b),
        Frame::AfterElse(c, a) => after_else(alloc, c, a, b),
        Frame::SecondPart(c, a) => second_part(alloc, c, a, b),
        _ => Ok(b),
    }
}

/// The operand in parentheses.
pub fn paren(b: Operand) -> Operand
    requires { b.height + 1 < 2 ^ 32 }
    ensures { operand_of result ≡ machine.paren_of (operand_of b) }
{
    Operand {
        term: b.term,
        height: b.height + 1,
        literal: false,
    }
}

pub fn sample_operand(alloc: Global, a: Operand, c: Name, b: bool) -> Result<Operand, Memory>
    requires { a.height + 1 < 2 ^ 32 }
    ensures { IfOk result (λ r. operand_of r ≡ machine.sampled_of (operand_of a) c b) }
{
    Ok(Operand {
        term: Box::new(alloc, Term::When(a.term, c, b))?,
        height: a.height + 1,
        literal: false,
    })
}
