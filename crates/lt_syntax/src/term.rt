// Expressions with names.
ghost use Rattle.std.specs.Prelude.{◌≡◌, IfOk, map};
ghost use Rattle.lt_syntax.specs.Views.{tm_of};

use crate::copying::{
    arrow, binary, both, box_term, call_term, choice, delay_term, follow_terms, merge_terms, push,
    sample_term, unary, variable,
};
use lt_base::{Bin, Memory, Name, Un, Value};

/// An expression as it is written, without its parentheses.
#[derive(Drop)]
pub enum Term {
    Lit(Value),
    Var(Name),
    Un(Un, Box<Term>),
    Bin(Bin, Box<Term>, Box<Term>),
    If(Box<Term>, Box<Term>, Box<Term>),
    /// The operand where a variable has this value.
    When(Box<Term>, Name, bool),
    Merge(Name, Box<Term>, Box<Term>),
    /// `fby` behind a literal.
    Fby(Value, Box<Term>),
    /// `fby` behind any other expression.
    Follow(Box<Term>, Box<Term>),
    /// `->`.
    Arrow(Box<Term>, Box<Term>),
    Call(Name, Vec<Term>),
}

impl Term {
    /// An equal term, with the allocators of this one.
    #[cycle(copying)]
    pub fn copy(&self) -> Result<Term, Memory>
        ensures { IfOk result (λ copy. tm_of copy ≡ tm_of self.now) }
    {
        match self {
            Term::Lit(v) => Ok(Term::Lit(*v)),
            Term::Var(x) => variable(x.copy()),
            Term::Un(o, a) => unary(*o, twin(a)),
            Term::Bin(o, a, b) => binary(*o, both(twin(a), twin(b))),
            Term::If(c, a, b) => choice(twin(c), both(twin(a), twin(b))),
            Term::When(a, c, polarity) => sample_term(twin(a), c.copy(), *polarity),
            Term::Merge(c, a, b) => merge_terms(c.copy(), both(twin(a), twin(b))),
            Term::Fby(v, a) => delay_term(*v, twin(a)),
            Term::Follow(a, b) => follow_terms(both(twin(a), twin(b))),
            Term::Arrow(a, b) => arrow(both(twin(a), twin(b))),
            Term::Call(f, arguments) => call_term(f.copy(), twins(arguments)),
        }
    }
}

// An equal term in a box of its own.
#[cycle(copying)]
fn twin(a: &Box<Term>) -> Result<Box<Term>, Memory>
    ensures { IfOk result (λ copy. tm_of copy.value ≡ tm_of a.now.value) }
{
    box_term(*Box::allocator(a), a.copy())
}

// Equal terms, one by one.
#[cycle(copying)]
fn twins(terms: &Vec<Term>) -> Result<Vec<Term>, Memory>
    ensures { IfOk result (λ copies. map tm_of copies.items ≡ map tm_of terms.now.items) }
{
    let mut copies = Vec::with_capacity(*terms.allocator(), terms.len())?;
    for term in terms {
        push(&mut copies, term.copy())?;
    }
    Ok(copies)
}
