// The bodies of the functions at the head, as trees.

ghost use Rattle.std.specs.Prelude.{◌≡◌, IfOk};
ghost use Rattle.lt_c.specs.Head.{own_y, ints_most, aid_size, t_local, t_join, t_choice, t_call, t_to_bits, t_to_int, a_declare, a_both, a_while, a_is, b_is, signed_term, opposite, aid_term, by_bits, by_divisor, helper_term, next_pair, gcd_act, helper_act};
ghost use Rattle.lt_c.specs.HeadViews.{local_of, arithmetic_of, comparison_of, aid_of, term_of, act_of};
ghost use Rattle.lt_c.specs.Views.{helper_of};

use crate::terms::{Aid, Arithmetic, Comparison, Step, Term, Variable};
use crate::trees::Function;
use lt_base::Memory;
use std::alloc::Global;

fn to_bits(alloc: Global, a: Term) -> Result<Term, Memory>
    ensures { IfOk result (λ e. term_of e ≡ t_to_bits (term_of a)) }
{
    Ok(Term::ToBits(Box::new(alloc, a)?))
}

fn to_int(alloc: Global, a: Term) -> Result<Term, Memory>
    ensures { IfOk result (λ e. term_of e ≡ t_to_int (term_of a)) }
{
    Ok(Term::ToInt(Box::new(alloc, a)?))
}

fn join(alloc: Global, o: Arithmetic, a: Term, b: Term) -> Result<Term, Memory>
    ensures { IfOk result (λ e. term_of e ≡ t_join (arithmetic_of o) (term_of a) (term_of b)) }
{
    let a = Box::new(alloc, a)?;
    let b = Box::new(alloc, b)?;
    Ok(Term::Join(o, a, b))
}

fn choose(
    alloc: Global,
    o: Comparison,
    a: Term,
    b: Term,
    then: Term,
    otherwise: Term,
) -> Result<Term, Memory>
    ensures { IfOk result (λ e. term_of e ≡ t_choice (comparison_of o) (term_of a) (term_of b) (term_of then) (term_of otherwise)) }
{
    let a = Box::new(alloc, a)?;
    let b = Box::new(alloc, b)?;
    let then = Box::new(alloc, then)?;
    let otherwise = Box::new(alloc, otherwise)?;
    Ok(Term::Choice(o, a, b, then, otherwise))
}

fn call(alloc: Global, k: Aid, a: Term) -> Result<Term, Memory>
    ensures { IfOk result (λ e. term_of e ≡ t_call (aid_of k) (term_of a)) }
{
    Ok(Term::Call(k, Box::new(alloc, a)?))
}

fn opposite(alloc: Global) -> Result<Term, Memory>
    ensures { IfOk result (λ e. term_of e ≡ opposite) }
{
    let a = to_bits(alloc, Term::Local(Variable::A))?;
    join(alloc, Arithmetic::SubtractBits, Term::Bits(0), a)
}

fn signed(alloc: Global) -> Result<Term, Memory>
    ensures { IfOk result (λ e. term_of e ≡ signed_term) }
{
    let high = join(
        alloc,
        Arithmetic::SubtractBits,
        Term::Bits(18446744073709551615),
        Term::Local(Variable::A),
    )?;
    let high = to_int(alloc, high)?;
    let negative = join(alloc, Arithmetic::Subtract, Term::Int(-1), high)?;
    let low = to_int(alloc, Term::Local(Variable::A))?;
    let most = Term::Bits(9223372036854775807);
    choose(
        alloc,
        Comparison::MostBits,
        Term::Local(Variable::A),
        most,
        low,
        negative,
    )
}

fn size(alloc: Global) -> Result<Term, Memory>
    ensures { IfOk result (λ e. term_of e ≡ aid_term (aid_of Aid.Size)) }
{
    let negative = opposite(alloc)?;
    let bits = to_bits(alloc, Term::Local(Variable::A))?;
    choose(
        alloc,
        Comparison::Less,
        Term::Local(Variable::A),
        Term::Int(0),
        negative,
        bits,
    )
}

fn negative(alloc: Global) -> Result<Term, Memory>
    ensures { IfOk result (λ e. term_of e ≡ aid_term (aid_of Aid.Negative)) }
{
    let bits = opposite(alloc)?;
    call(alloc, Aid::Signed, bits)
}

/// What a function that others call returns.
pub(crate) fn aid_term(alloc: Global, k: Aid) -> Result<Term, Memory>
    ensures { IfOk result (λ e. term_of e ≡ aid_term (aid_of k)) }
{
    match k {
        Aid::Signed => signed(alloc),
        Aid::Negative => negative(alloc),
        Aid::Size => size(alloc),
    }
}

// An operator on the bits of the two parameters.
fn by_bits(alloc: Global, o: Arithmetic) -> Result<Term, Memory>
    ensures { IfOk result (λ e. term_of e ≡ by_bits (arithmetic_of o)) }
{
    let a = to_bits(alloc, Term::Local(Variable::A))?;
    let b = to_bits(alloc, Term::Local(Variable::B))?;
    let bits = join(alloc, o, a, b)?;
    call(alloc, Aid::Signed, bits)
}

// One of three by the second parameter: 0, -1 or another.
fn by_divisor(alloc: Global, none: Term, minus: Term, other: Term) -> Result<Term, Memory>
    ensures { IfOk result (λ e. term_of e ≡ by_divisor (term_of none) (term_of minus) (term_of other)) }
{
    let b = Term::Local(Variable::B);
    let some = choose(alloc, Comparison::Equal, b, Term::Int(-1), minus, other)?;
    let b = Term::Local(Variable::B);
    choose(alloc, Comparison::Equal, b, Term::Int(0), none, some)
}

// An operator on the two parameters.
fn of_parameters(alloc: Global, o: Arithmetic) -> Result<Term, Memory>
    ensures { IfOk result (λ e. term_of e ≡ t_join (arithmetic_of o) a_is b_is) }
{
    join(alloc, o, Term::Local(Variable::A), Term::Local(Variable::B))
}

fn quotient(alloc: Global) -> Result<Term, Memory>
    ensures { IfOk result (λ e. term_of e ≡ helper_term (helper_of Function.Div)) }
{
    let minus = call(alloc, Aid::Negative, Term::Local(Variable::A))?;
    let other = of_parameters(alloc, Arithmetic::Divide)?;
    by_divisor(alloc, Term::Int(0), minus, other)
}

fn remainder(alloc: Global) -> Result<Term, Memory>
    ensures { IfOk result (λ e. term_of e ≡ helper_term (helper_of Function.Mod)) }
{
    let other = of_parameters(alloc, Arithmetic::Rest)?;
    by_divisor(alloc, Term::Local(Variable::A), Term::Int(0), other)
}

// One of the parameters where the first is at most the second, and else another.
fn by_order(alloc: Global, then: Variable, otherwise: Variable) -> Result<Term, Memory>
    ensures { IfOk result (λ e. term_of e ≡ t_choice ints_most a_is b_is (t_local (local_of then)) (t_local (local_of otherwise))) }
{
    choose(
        alloc,
        Comparison::Most,
        Term::Local(Variable::A),
        Term::Local(Variable::B),
        Term::Local(then),
        Term::Local(otherwise),
    )
}

/// What a function at the head returns.
pub(crate) fn helper_term(alloc: Global, h: Function) -> Result<Term, Memory>
    ensures { IfOk result (λ e. term_of e ≡ helper_term (helper_of h)) }
{
    match h {
        Function::Add => by_bits(alloc, Arithmetic::AddBits),
        Function::Sub => by_bits(alloc, Arithmetic::SubtractBits),
        Function::Mul => by_bits(alloc, Arithmetic::MultiplyBits),
        Function::Div => quotient(alloc),
        Function::Mod => remainder(alloc),
        Function::Min => by_order(alloc, Variable::A, Variable::B),
        Function::Max => by_order(alloc, Variable::B, Variable::A),
        Function::Gcd => call(alloc, Aid::Signed, Term::Local(Variable::X)),
    }
}

fn then(alloc: Global, a: Step, b: Step) -> Result<Step, Memory>
    ensures { IfOk result (λ s. act_of s ≡ a_both (act_of a) (act_of b)) }
{
    let a = Box::new(alloc, a)?;
    let b = Box::new(alloc, b)?;
    Ok(Step::Both(a, b))
}

// The next pair of numbers in Euclid's algorithm.
fn next_pair(alloc: Global) -> Result<Step, Memory>
    ensures { IfOk result (λ s. act_of s ≡ next_pair) }
{
    let rest = join(
        alloc,
        Arithmetic::BitsRest,
        Term::Local(Variable::X),
        Term::Local(Variable::Y),
    )?;
    let first = Step::Set(Variable::X, Term::Local(Variable::Y));
    let second = Step::Set(Variable::Y, Term::Local(Variable::Z));
    let moved = then(alloc, first, second)?;
    then(alloc, Step::Declare(Variable::Z, rest), moved)
}

// Declares a variable as the distance of a parameter from 0.
fn declare_size(alloc: Global, x: Variable, a: Variable) -> Result<Step, Memory>
    ensures { IfOk result (λ s. act_of s ≡ a_declare (local_of x) (t_call aid_size (t_local (local_of a)))) }
{
    let size = call(alloc, Aid::Size, Term::Local(a))?;
    Ok(Step::Declare(x, size))
}

fn divide_until_zero(alloc: Global) -> Result<Step, Memory>
    ensures { IfOk result (λ s. act_of s ≡ a_while own_y next_pair) }
{
    let next = Box::new(alloc, next_pair(alloc)?)?;
    Ok(Step::While(Variable::Y, next))
}

fn find_divisor(alloc: Global) -> Result<Step, Memory>
    ensures { IfOk result (λ s. act_of s ≡ gcd_act) }
{
    let x = declare_size(alloc, Variable::X, Variable::A)?;
    let y = declare_size(alloc, Variable::Y, Variable::B)?;
    let found = divide_until_zero(alloc)?;
    let rest = then(alloc, y, found)?;
    then(alloc, x, rest)
}

/// What a function at the head does before it returns.
pub(crate) fn helper_act(alloc: Global, h: Function) -> Result<Step, Memory>
    ensures { IfOk result (λ s. act_of s ≡ helper_act (helper_of h)) }
{
    match h {
        Function::Gcd => find_divisor(alloc),
        _ => Ok(Step::Skip),
    }
}
