// The types of expressions that have one.

ghost use Rattle.std.specs.Prelude.{◌≡◌};
ghost use Rattle.lt_base.specs.Expression.{shape};
ghost use Rattle.lt_base.specs.Value.{ty_of};
ghost use Rattle.lt_norm.specs.Plain.{blank, bin_result, declared_type, kind, un_result};

use lt_base::{Bin, Decl, Expr, List, Ty, Un, Value};

/// The type of a value.
pub(crate) fn type_of_value(v: Value) -> Ty
    ensures { result ≡ ty_of v }
{
    match v {
        Value::Int(_) => Ty::Int,
        Value::Bool(_) => Ty::Bool,
    }
}

// The declared type of a variable.
fn declared_type(known: &List<Decl>, variable: u32) -> Ty
    ensures { result ≡ declared_type known.now variable }
{
    match known.get(variable as usize) {
        Some(decl) => decl.ty,
        None => Ty::Int,
    }
}

// The type of what an operator of one operand gives.
fn un_result(op: Un) -> Ty
    ensures { result ≡ un_result op }
{
    match op {
        Un::Neg => Ty::Int,
        Un::Not => Ty::Bool,
    }
}

// The type of what an operator of two operands gives.
fn bin_result(op: Bin) -> Ty
    ensures { result ≡ bin_result op }
{
    match op {
        Bin::Add => Ty::Int,
        Bin::Sub => Ty::Int,
        Bin::Mul => Ty::Int,
        Bin::Div => Ty::Int,
        Bin::Mod => Ty::Int,
        Bin::Eq => Ty::Bool,
        Bin::Ne => Ty::Bool,
        Bin::Lt => Ty::Bool,
        Bin::Le => Ty::Bool,
        Bin::Gt => Ty::Bool,
        Bin::Ge => Ty::Bool,
        Bin::And => Ty::Bool,
        Bin::Or => Ty::Bool,
        Bin::Xor => Ty::Bool,
        Bin::Implies => Ty::Bool,
    }
}

/// The type of an expression without calls that has one. It goes down one path alone.
pub(crate) fn kind(known: &List<Decl>, e: &Expr) -> Ty
    ensures { result ≡ kind known.now (shape e.now) }
{
    match e {
        Expr::Lit(v) => type_of_value(*v),
        Expr::Var(x) => declared_type(known, *x),
        Expr::Un(op, _) => un_result(*op),
        Expr::Bin(op, _, _) => bin_result(*op),
        Expr::Imported(_, _, _) => Ty::Int,
        Expr::If(_, a, _) => kind(known, a),
        Expr::When(a, _, _) => kind(known, a),
        Expr::Merge(_, a, _) => kind(known, a),
        Expr::Fby(v, _) => type_of_value(*v),
        Expr::Follow(a, _) => kind(known, a),
        Expr::Arrow(a, _) => kind(known, a),
        Expr::Call(_, _) => Ty::Int,
    }
}

/// The literal of a delay whose first value nobody sees.
pub(crate) fn blank(ty: Ty) -> Value
    ensures { result ≡ blank ty }
{
    match ty {
        Ty::Int => Value::Int(0),
        Ty::Bool => Value::Bool(false),
    }
}
