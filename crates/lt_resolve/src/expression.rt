// Names to numbers in expressions.
ghost use Rattle.std.specs.Prelude.{◌≡◌, ℕ, List, Option, None, Ok, IfOk, length, map, vec_len};
ghost use Rattle.std.specs.Option.{option_or};
ghost use Rattle.lt_base.specs.Expression.{shape, arguments_of};
ghost use Rattle.lt_syntax.specs.Tree as tree;
ghost use Rattle.lt_syntax.specs.Tree.{tms};
ghost use Rattle.lt_syntax.specs.Views.{tm_of};
ghost use Rattle.lt_resolve.specs.Names.{if_missing};
ghost use Rattle.lt_resolve.specs.Named.{operator_of};
ghost use Rattle.lt_resolve.specs.Uses.{if_uncallable, unknown, unknown_argument};
ghost use Rattle.lt_resolve.specs.Told.{TellsName};
ghost use Rattle.lt_base.specs.Memory.{NeedsNoMemory};
ghost use Rattle.lt_resolve.specs.Known.{StandsFor, IsOperation, IsCalled, IsTranslated, AreTranslated};

use crate::names::Names;
use lt_base::{Bin, Expr, Imp, Memory, Name, Or, Un, Value};
use lt_syntax::Term;
use std::alloc::Global;

/// What the name of a call stands for.
#[derive(Clone, Copy)]
enum Callee {
    Function(u32),
    Operator(Imp),
}

/// The imported operator of this name.
fn operator_of(name: &str) -> Option<Imp>
    ensures { result ≡ operator_of name.now }
{
    if name == "min" {
        Some(Imp::Min)
    } else if name == "max" {
        Some(Imp::Max)
    } else if name == "gcd" {
        Some(Imp::Gcd)
    } else {
        None
    }
}

/// The function of this name or, without one, the imported operator; refuses a name that is neither.
fn callee_of<'t>(functions: &Names, name: &'t str) -> Result<Callee, Or<&'t str>>
    ensures told { TellsName (if_uncallable functions.now name.now) result }
    ensures memory { NeedsNoMemory result }
    ensures found { IfOk result (StandsFor functions.now name.now) }
{
    match functions.number(name) {
        Some(g) => Ok(Callee::Function(g)),
        None => match operator_of(name) {
            Some(operator) => Ok(Callee::Operator(operator)),
            None => Err(Or::Fault(name)),
        },
    }
}

/// An imported operator with its two operands. A call with another number of them is refused later; a literal stands
/// for it until then.
fn operation(alloc: Global, operator: Imp, mut args: Vec<Expr>) -> Result<Expr, Memory>
    ensures { IfOk result (λ e. vec_len args ≡ 2 → IsOperation operator (arguments_of (map shape args.items)) (shape e)) }
{
    if args.len() != 2 {
        return Ok(Expr::Lit(Value::Bool(false)));
    }
    let b = args.pop().unwrap();
    let a = args.pop().unwrap();
    let a = Box::new(alloc, a)?;
    let b = Box::new(alloc, b)?;
    Ok(Expr::Imported(operator, a, b))
}

/// What is called, with its arguments.
fn call<'t>(alloc: Global, callee: Callee, args: Vec<Expr>) -> Result<Expr, Or<&'t str>>
    ensures told { TellsName None result }
    ensures called { IfOk result (λ e. IsCalled callee (vec_len args) (arguments_of (map shape args.items)) (shape e)) }
{
    match callee {
        Callee::Function(g) => Ok(Expr::Call(g, args)),
        Callee::Operator(operator) => Ok(operation(alloc, operator, args)?),
    }
}

/// A variable by its number; refuses a name that is not declared.
fn variable<'t>(variables: &Names, name: &'t Name) -> Result<Expr, Or<&'t str>>
    ensures told { TellsName (if_missing variables.now name.now) result }
    ensures named { IfOk result (λ e. (functions : List (List ℕ)) → IsTranslated variables.now functions (tree.Var name.now) (shape e)) }
{
    Ok(Expr::Var(variables.find(name.as_str())?))
}

/// The expression that was made, in a box.
fn in_box<'t>(alloc: Global, made: Result<Expr, Or<&'t str>>) -> Result<Box<Expr>, Or<&'t str>>
    ensures told { (unknown : Option (List ℕ)) → TellsName unknown made.entry → TellsName unknown result }
    ensures boxed { IfOk result (λ e. made.entry ≡ Ok e.value) }
{
    match made {
        Ok(e) => Ok(Box::new(alloc, e)?),
        Err(error) => Err(error),
    }
}

/// The expression of a term, in which each variable and each function has its number; refuses the first name that has
/// none.
#[cycle(expression)]
pub fn expression<'t>(
    alloc: Global,
    variables: &Names,
    functions: &Names,
    term: &'t Term,
) -> Result<Expr, Or<&'t str>>
    ensures told { TellsName (unknown variables.now functions.now (tm_of term.now)) result }
    ensures named { IfOk result (λ e. IsTranslated variables.now functions.now (tm_of term.now) (shape e)) }
{
    match term {
        Term::Lit(v) => Ok(Expr::Lit(*v)),
        Term::Var(x) => variable(variables, x),
        Term::Un(o, a) => unary(alloc, variables, functions, *o, a),
        Term::Bin(o, a, b) => binary(alloc, variables, functions, *o, a, b),
        Term::If(c, a, b) => choice(alloc, variables, functions, c, a, b),
        Term::When(a, c, polarity) => sample_of(alloc, variables, functions, a, c, *polarity),
        Term::Merge(c, a, b) => merge_of(alloc, variables, functions, c, a, b),
        Term::Fby(v, a) => delay_of(alloc, variables, functions, *v, a),
        Term::Follow(a, b) => follow_of(alloc, variables, functions, a, b),
        Term::Arrow(a, b) => arrow(alloc, variables, functions, a, b),
        Term::Call(f, args) => call_of(alloc, variables, functions, f, args),
    }
}

/// The same in a box.
#[cycle(expression)]
fn box_expression<'t>(
    alloc: Global,
    variables: &Names,
    functions: &Names,
    term: &'t Term,
) -> Result<Box<Expr>, Or<&'t str>>
    ensures told { TellsName (unknown variables.now functions.now (tm_of term.now)) result }
    ensures named { IfOk result (λ e. IsTranslated variables.now functions.now (tm_of term.now) (shape e.value)) }
{
    in_box(alloc, expression(alloc, variables, functions, term))
}

/// Two operands, in boxes.
#[cycle(expression)]
#[inline(always)]
fn operands<'t>(
    alloc: Global,
    variables: &Names,
    functions: &Names,
    a: &'t Term,
    b: &'t Term,
) -> Result<(Box<Expr>, Box<Expr>), Or<&'t str>>
    ensures told { TellsName (option_or (unknown variables.now functions.now (tm_of a.now)) (unknown variables.now functions.now (tm_of b.now))) result }
    ensures named { IfOk result (λ p. IsTranslated variables.now functions.now (tm_of a.now) (shape p.0.value)
        × IsTranslated variables.now functions.now (tm_of b.now) (shape p.1.value)) }
{
    let a = box_expression(alloc, variables, functions, a)?;
    let b = box_expression(alloc, variables, functions, b)?;
    Ok((a, b))
}

/// An operator on one operand.
#[cycle(expression)]
fn unary<'t>(
    alloc: Global,
    variables: &Names,
    functions: &Names,
    o: Un,
    a: &'t Term,
) -> Result<Expr, Or<&'t str>>
    ensures told { TellsName (unknown variables.now functions.now (tree.Unary o (tm_of a.now))) result }
    ensures named { IfOk result (λ e. IsTranslated variables.now functions.now (tree.Unary o (tm_of a.now)) (shape e)) }
{
    match box_expression(alloc, variables, functions, a) {
        Ok(a) => Ok(Expr::Un(o, a)),
        Err(error) => Err(error),
    }
}

/// An operator between two operands.
#[cycle(expression)]
fn binary<'t>(
    alloc: Global,
    variables: &Names,
    functions: &Names,
    o: Bin,
    a: &'t Term,
    b: &'t Term,
) -> Result<Expr, Or<&'t str>>
    ensures told { TellsName (unknown variables.now functions.now (tree.Binary o (tm_of a.now) (tm_of b.now))) result }
    ensures named { IfOk result (λ e. IsTranslated variables.now functions.now (tree.Binary o (tm_of a.now) (tm_of b.now)) (shape e)) }
{
    match operands(alloc, variables, functions, a, b) {
        Ok((a, b)) => Ok(Expr::Bin(o, a, b)),
        Err(error) => Err(error),
    }
}

/// A choice.
#[cycle(expression)]
fn choice<'t>(
    alloc: Global,
    variables: &Names,
    functions: &Names,
    c: &'t Term,
    a: &'t Term,
    b: &'t Term,
) -> Result<Expr, Or<&'t str>>
    ensures told { TellsName (unknown variables.now functions.now (tree.Choice (tm_of c.now) (tm_of a.now) (tm_of b.now))) result }
    ensures named { IfOk result (λ e. IsTranslated variables.now functions.now (tree.Choice (tm_of c.now) (tm_of a.now) (tm_of b.now)) (shape e)) }
{
    let c = box_expression(alloc, variables, functions, c)?;
    match operands(alloc, variables, functions, a, b) {
        Ok((a, b)) => Ok(Expr::If(c, a, b)),
        Err(error) => Err(error),
    }
}

/// An operand where a variable has this value.
#[cycle(expression)]
fn sample_of<'t>(
    alloc: Global,
    variables: &Names,
    functions: &Names,
    a: &'t Term,
    c: &'t Name,
    polarity: bool,
) -> Result<Expr, Or<&'t str>>
    ensures told { TellsName (unknown variables.now functions.now (tree.Sampled (tm_of a.now) c.now polarity)) result }
    ensures named { IfOk result (λ e. IsTranslated variables.now functions.now (tree.Sampled (tm_of a.now) c.now polarity) (shape e)) }
{
    let a = box_expression(alloc, variables, functions, a)?;
    let c = variables.find(c.as_str())?;
    Ok(Expr::When(a, c, polarity))
}

/// A merge of two branches by a variable.
#[cycle(expression)]
fn merge_of<'t>(
    alloc: Global,
    variables: &Names,
    functions: &Names,
    c: &'t Name,
    a: &'t Term,
    b: &'t Term,
) -> Result<Expr, Or<&'t str>>
    ensures told { TellsName (unknown variables.now functions.now (tree.Merged c.now (tm_of a.now) (tm_of b.now))) result }
    ensures named { IfOk result (λ e. IsTranslated variables.now functions.now (tree.Merged c.now (tm_of a.now) (tm_of b.now)) (shape e)) }
{
    let c = variables.find(c.as_str())?;
    match operands(alloc, variables, functions, a, b) {
        Ok((a, b)) => Ok(Expr::Merge(c, a, b)),
        Err(error) => Err(error),
    }
}

/// A delay that begins with a literal.
#[cycle(expression)]
fn delay_of<'t>(
    alloc: Global,
    variables: &Names,
    functions: &Names,
    v: Value,
    a: &'t Term,
) -> Result<Expr, Or<&'t str>>
    ensures told { TellsName (unknown variables.now functions.now (tree.Delayed v (tm_of a.now))) result }
    ensures named { IfOk result (λ e. IsTranslated variables.now functions.now (tree.Delayed v (tm_of a.now)) (shape e)) }
{
    match box_expression(alloc, variables, functions, a) {
        Ok(a) => Ok(Expr::Fby(v, a)),
        Err(error) => Err(error),
    }
}

/// A delay that begins with an expression.
#[cycle(expression)]
fn follow_of<'t>(
    alloc: Global,
    variables: &Names,
    functions: &Names,
    a: &'t Term,
    b: &'t Term,
) -> Result<Expr, Or<&'t str>>
    ensures told { TellsName (unknown variables.now functions.now (tree.Followed (tm_of a.now) (tm_of b.now))) result }
    ensures named { IfOk result (λ e. IsTranslated variables.now functions.now (tree.Followed (tm_of a.now) (tm_of b.now)) (shape e)) }
{
    match operands(alloc, variables, functions, a, b) {
        Ok((a, b)) => Ok(Expr::Follow(a, b)),
        Err(error) => Err(error),
    }
}

/// The two sides of `->`.
#[cycle(expression)]
fn arrow<'t>(
    alloc: Global,
    variables: &Names,
    functions: &Names,
    a: &'t Term,
    b: &'t Term,
) -> Result<Expr, Or<&'t str>>
    ensures told { TellsName (unknown variables.now functions.now (tree.Arrow (tm_of a.now) (tm_of b.now))) result }
    ensures named { IfOk result (λ e. IsTranslated variables.now functions.now (tree.Arrow (tm_of a.now) (tm_of b.now)) (shape e)) }
{
    match operands(alloc, variables, functions, a, b) {
        Ok((a, b)) => Ok(Expr::Arrow(a, b)),
        Err(error) => Err(error),
    }
}

/// A call with its arguments; its name is looked up first.
#[cycle(expression)]
fn call_of<'t>(
    alloc: Global,
    variables: &Names,
    functions: &Names,
    name: &'t Name,
    args: &'t [Term],
) -> Result<Expr, Or<&'t str>>
    ensures told { TellsName (unknown variables.now functions.now (tree.Call name.now (tms (map tm_of args.now)))) result }
    ensures named { IfOk result (λ e. IsTranslated variables.now functions.now (tree.Call name.now (tms (map tm_of args.now))) (shape e)) }
{
    let callee = callee_of(functions, name.as_str())?;
    let args = arguments(alloc, variables, functions, args)?;
    call(alloc, callee, args)
}

#[cycle(expression)]
fn arguments<'t>(
    alloc: Global,
    variables: &Names,
    functions: &Names,
    args: &'t [Term],
) -> Result<Vec<Expr>, Or<&'t str>>
    ensures told { TellsName (unknown_argument variables.now functions.now (tms (map tm_of args.now))) result }
    ensures len { IfOk result (λ es. vec_len es ≡ length args.now) }
    ensures named { IfOk result (λ es. AreTranslated variables.now functions.now (tms (map tm_of args.now)) (arguments_of (map shape es.items))) }
{
    let mut exprs = Vec::with_capacity(alloc, args.len())?;
    'arguments: for a in args {
        exprs.push(expression(alloc, variables, functions, a)?)?;
    }
    Ok(exprs)
}
