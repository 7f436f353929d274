// Terms of parts that were copied, where each copy was made.
ghost use Rattle.std.specs.Prelude.{◌≡◌, ◌++◌, ◌∷◌, [], ℕ, List, IfOk, OnOk, map};
ghost use Rattle.lt_syntax.specs.Tree as tree;
ghost use Rattle.lt_syntax.specs.Tree.{Tm, tms};
ghost use Rattle.lt_syntax.specs.Views.{tm_of, IsTerm, AreTerms, IsName, AreArguments};

use crate::term::Term;
use lt_base::{Bin, Memory, Name, Un, Value};
use std::alloc::Global;

/// A term in a box of its own.
pub fn box_term(alloc: Global, term: Result<Term, Memory>) -> Result<Box<Term>, Memory>
    ensures { (x : Tm) → IfOk term (λ t. tm_of t ≡ x) → IfOk result (IsTerm x) }
{
    Ok(Box::new(alloc, term?)?)
}

/// Two terms, where both were copied.
pub fn both(
    a: Result<Box<Term>, Memory>,
    b: Result<Box<Term>, Memory>,
) -> Result<(Box<Term>, Box<Term>), Memory>
    ensures { (x y : Tm) → IfOk a (IsTerm x) → IfOk b (IsTerm y) → IfOk result (AreTerms x y) }
{
    let first = a?;
    Ok((first, b?))
}

pub fn variable(x: Result<Name, Memory>) -> Result<Term, Memory>
    ensures { (name : List ℕ) → IfOk x (IsName name) → IfOk result (λ t. tm_of t ≡ tree.Var name) }
{
    Ok(Term::Var(x?))
}

pub fn unary(o: Un, a: Result<Box<Term>, Memory>) -> Result<Term, Memory>
    ensures { (x : Tm) → IfOk a (IsTerm x) → IfOk result (λ t. tm_of t ≡ tree.Unary o x) }
{
    Ok(Term::Un(o, a?))
}

pub fn binary(o: Bin, parts: Result<(Box<Term>, Box<Term>), Memory>) -> Result<Term, Memory>
    ensures { (x y : Tm) → IfOk parts (AreTerms x y) → IfOk result (λ t. tm_of t ≡ tree.Binary o x y) }
{
    let (a, b) = parts?;
    Ok(Term::Bin(o, a, b))
}

pub fn choice(
    c: Result<Box<Term>, Memory>,
    parts: Result<(Box<Term>, Box<Term>), Memory>,
) -> Result<Term, Memory>
    ensures { (z x y : Tm) → IfOk c (IsTerm z) → IfOk parts (AreTerms x y) → IfOk result (λ t. tm_of t ≡ tree.Choice z x y) }
{
    let (a, b) = parts?;
    Ok(Term::If(c?, a, b))
}

pub fn sample_term(
    a: Result<Box<Term>, Memory>,
    c: Result<Name, Memory>,
    polarity: bool,
) -> Result<Term, Memory>
    ensures { (x : Tm) (name : List ℕ) → IfOk a (IsTerm x) → IfOk c (IsName name) → IfOk result (λ t. tm_of t ≡ tree.Sampled x name polarity) }
{
    let a = a?;
    Ok(Term::When(a, c?, polarity))
}

pub fn merge_terms(
    c: Result<Name, Memory>,
    parts: Result<(Box<Term>, Box<Term>), Memory>,
) -> Result<Term, Memory>
    ensures { (name : List ℕ) (x y : Tm) → IfOk c (IsName name) → IfOk parts (AreTerms x y) → IfOk result (λ t. tm_of t ≡ tree.Merged name x y) }
{
    let (a, b) = parts?;
    Ok(Term::Merge(c?, a, b))
}

pub fn delay_term(v: Value, a: Result<Box<Term>, Memory>) -> Result<Term, Memory>
    ensures { (x : Tm) → IfOk a (IsTerm x) → IfOk result (λ t. tm_of t ≡ tree.Delayed v x) }
{
    Ok(Term::Fby(v, a?))
}

pub fn follow_terms(parts: Result<(Box<Term>, Box<Term>), Memory>) -> Result<Term, Memory>
    ensures { (x y : Tm) → IfOk parts (AreTerms x y) → IfOk result (λ t. tm_of t ≡ tree.Followed x y) }
{
    let (a, b) = parts?;
    Ok(Term::Follow(a, b))
}

pub fn arrow(parts: Result<(Box<Term>, Box<Term>), Memory>) -> Result<Term, Memory>
    ensures { (x y : Tm) → IfOk parts (AreTerms x y) → IfOk result (λ t. tm_of t ≡ tree.Arrow x y) }
{
    let (a, b) = parts?;
    Ok(Term::Arrow(a, b))
}

pub fn call_term(
    f: Result<Name, Memory>,
    arguments: Result<Vec<Term>, Memory>,
) -> Result<Term, Memory>
    ensures { (name : List ℕ) (xs : List Tm) → IfOk f (IsName name) → IfOk arguments (AreArguments xs) → IfOk result (λ t. tm_of t ≡ tree.Call name (tms xs)) }
{
    let f = f?;
    Ok(Term::Call(f, arguments?))
}

/// One more argument, where it was copied.
pub fn push(copies: &mut Vec<Term>, term: Result<Term, Memory>) -> Result<(), Memory>
    ensures { (x : Tm) → IfOk term (λ t. tm_of t ≡ x) → OnOk result (map tm_of copies.new.items ≡ map tm_of copies.old.items ++ x ∷ []) }
{
    copies.push(term?)?;
    Ok(())
}
