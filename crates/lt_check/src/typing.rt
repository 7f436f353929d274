// Types.

ghost use Rattle.std.specs.Prelude.{◌≡◌, ◌<◌, ◌^◌, ◌↔◌, ℕ, Ok, Err, Some, All, length, MatchBool, MatchOption, MatchResult, map};
ghost use Rattle.lt_base.specs.Expression.{shape};
ghost use Rattle.lt_base.specs.Typing.{ty_at, type_of, arguments_fit, input_types, answer_type, TypedFunction, TypedProgram};
ghost use Rattle.lt_check.specs.Places.{FirstDeclaration};
ghost use Rattle.lt_check.specs.TypeFaults.{AllBools, BoolClock, HasItsType, IsMisfit, IsTypeFaultIn, IsFirstTypeFault};

use crate::readers::{answer_type, declared_type, function_at, input_type, ty_at};
use crate::rules::{bin_type, imported_type, is_type, shared_type, ty_of, un_type, under_bool};
use lt_base::{Clock, Decl, Equation, Expr, Func, List, Program, Ty};

/// The type of an expression, if it has one.
#[cycle(typing)]
fn type_of(funcs: &List<Func>, decls: &List<Decl>, e: &Expr) -> Option<Ty>
    ensures { result ≡ type_of funcs.now decls.now (shape e.now) }
{
    match e {
        Expr::Lit(v) => Some(ty_of(*v)),
        Expr::Var(x) => ty_at(decls, *x),
        Expr::Un(op, a) => un_type(*op, type_of(funcs, decls, a)?),
        Expr::Bin(op, a, b) => bin_type(*op, type_of(funcs, decls, a), type_of(funcs, decls, b)),
        Expr::Imported(_, a, b) => imported_type(
            type_of(funcs, decls, a),
            type_of(funcs, decls, b),
        ),
        Expr::If(c, a, b) => under_bool(
            type_of(funcs, decls, c),
            shared_type(type_of(funcs, decls, a), type_of(funcs, decls, b)),
        ),
        Expr::When(e, c, _) => under_bool(ty_at(decls, *c), type_of(funcs, decls, e)),
        Expr::Merge(c, a, b) => under_bool(
            ty_at(decls, *c),
            shared_type(type_of(funcs, decls, a), type_of(funcs, decls, b)),
        ),
        Expr::Fby(v, e) => shared_type(Some(ty_of(*v)), type_of(funcs, decls, e)),
        Expr::Follow(a, b) => shared_type(type_of(funcs, decls, a), type_of(funcs, decls, b)),
        Expr::Arrow(a, b) => shared_type(type_of(funcs, decls, a), type_of(funcs, decls, b)),
        Expr::Call(g, args) => match function_at(funcs, *g) {
            Some(f) => call_type(funcs, decls, f, args),
            None => None,
        },
    }
}

/// The type of a call of the function with these arguments.
#[cycle(typing)]
fn call_type(funcs: &List<Func>, decls: &List<Decl>, f: &Func, args: &[Expr]) -> Option<Ty>
    ensures { result ≡ arguments_fit (input_types f.now) (map (λ e. type_of funcs.now decls.now (shape e)) args.now) (answer_type f.now.decls f.now.outs) }
{
    if args.len() != f.n_in as usize {
        return None;
    }
    for (i, a) in args.iter().enumerate() {
        if !is_type(type_of(funcs, decls, a), input_type(f, i)) {
            return None;
        }
    }
    answer_type(f)
}

/// The first fault of types.
#[derive(Clone, Copy, Debug, PartialEq, Eq)]
pub struct TypeFault {
    /// The number of the function.
    pub func: u32,
    /// The variable whose equation is at fault, or the one declared with an int as a clock variable.
    pub var: u32,
    pub want: Ty,
    /// The type that was found, if there is one.
    pub got: Option<Ty>,
}

/// Whether every clock variable is a bool.
fn is_bool_clock(decls: &List<Decl>, clock: &Clock) -> bool
    ensures { MatchBool result (AllBools decls.now clock.now) (¬ AllBools decls.now clock.now) }
{
    for (variable, _polarity) in clock.steps.iter() {
        if !is_type(ty_at(decls, *variable), Ty::Bool) {
            return false;
        }
    }
    true
}

/// The first variable with an int among its clock variables.
pub(crate) fn int_clock(f: &Func) -> Option<u32>
    requires { length f.now.decls < 2 ^ 32 }
    ensures { MatchOption result ((x : ℕ) → x < length f.now.decls → BoolClock f.now.decls x) (FirstDeclaration (BoolClock f.now.decls) f.now) }
{
    for (variable, decl) in f.decls.iter().enumerate() {
        if !is_bool_clock(&f.decls, &decl.clock) {
            return Some(variable as u32);
        }
    }
    None
}

/// The type that a right side wants and the one that it has, where they differ.
pub(crate) fn misfit(
    funcs: &List<Func>,
    decls: &List<Decl>,
    equation: &Equation,
) -> Option<(Ty, Option<Ty>)>
    requires { equation.now.0 < length decls.now }
    ensures { MatchOption result (HasItsType funcs.now decls.now equation.now) (IsMisfit funcs.now decls.now equation.now) }
{
    let want = declared_type(decls, equation.left());
    let got = type_of(funcs, decls, equation.right());
    if is_type(got, want) {
        return None;
    }
    Some((want, got))
}

/// The first fault of a function's types.
fn function_types(funcs: &List<Func>, number: u32, f: &Func) -> Result<(), TypeFault>
    requires { length f.now.decls < 2 ^ 32 }
    ensures { MatchResult result (λ _. TypedFunction funcs.now f.now) (λ fault. (fault.func ≡ number) × IsTypeFaultIn funcs.now f.now fault) }
{
    if let Some(variable) = int_clock(f) {
        return Err(TypeFault {
            func: number,
            var: variable,
            want: Ty::Bool,
            got: Some(Ty::Int),
        });
    }
    for equation in f.eqs.iter() {
        if let Some((want, got)) = misfit(funcs, &f.decls, equation) {
            return Err(TypeFault {
                func: number,
                var: equation.left(),
                want,
                got,
            });
        }
    }
    Ok(())
}

/// The types of a program. It takes no memory.
pub fn types(p: &Program) -> Result<(), TypeFault>
    requires functions { length p.now.funcs < 2 ^ 32 }
    requires variables { All (λ f. length f.decls < 2 ^ 32) p.now.funcs }
    ensures typed { (result ≡ Ok tt) ↔ TypedProgram p.now }
    ensures fault { (fault : TypeFault) → (result ≡ Err fault) ↔ IsFirstTypeFault p.now fault }
{
    for (number, f) in p.funcs.iter().enumerate() {
        function_types(&p.funcs, number as u32, f)?;
    }
    Ok(())
}
