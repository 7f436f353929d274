// The types of values and operators.

ghost use Rattle.std.specs.Prelude.{◌≡◌, ◌≢◌, Some, MatchBool};
ghost use Rattle.lt_base.specs.Value.{ty_of};
ghost use Rattle.lt_base.specs.Typing.{un_type, ints_type, truths_type, bin_type, imported_type, shared_type, both_types, under_bool};

use lt_base::{Bin, Ty, Un, Value};

/// The type of a value.
pub fn ty_of(value: Value) -> Ty
    ensures { result ≡ ty_of value }
{
    match value {
        Value::Int(_) => Ty::Int,
        Value::Bool(_) => Ty::Bool,
    }
}

/// Whether the type is there and is that one.
pub fn is_type(got: Option<Ty>, want: Ty) -> bool
    ensures { MatchBool result (got ≡ Some want) (got ≢ Some want) }
{
    match (got, want) {
        (Some(Ty::Int), Ty::Int) => true,
        (Some(Ty::Bool), Ty::Bool) => true,
        _ => false,
    }
}

/// The type of an operator of one operand.
pub fn un_type(op: Un, operand: Ty) -> Option<Ty>
    ensures { result ≡ un_type op operand }
{
    match (op, operand) {
        (Un::Neg, Ty::Int) => Some(Ty::Int),
        (Un::Not, Ty::Bool) => Some(Ty::Bool),
        _ => None,
    }
}

fn ints_type(op: Bin) -> Option<Ty>
    ensures { result ≡ ints_type op }
{
    match op {
        Bin::Add | Bin::Sub | Bin::Mul | Bin::Div | Bin::Mod => Some(Ty::Int),
        Bin::Eq | Bin::Ne | Bin::Lt | Bin::Le | Bin::Gt | Bin::Ge => Some(Ty::Bool),
        Bin::And | Bin::Or | Bin::Xor | Bin::Implies => None,
    }
}

fn truths_type(op: Bin) -> Option<Ty>
    ensures { result ≡ truths_type op }
{
    match op {
        Bin::Eq | Bin::Ne | Bin::And | Bin::Or | Bin::Xor | Bin::Implies => Some(Ty::Bool),
        _ => None,
    }
}

/// The type of an operator of two operands, where both have one.
pub fn bin_type(op: Bin, left: Option<Ty>, right: Option<Ty>) -> Option<Ty>
    ensures { result ≡ both_types (bin_type op) left right }
{
    match (left?, right?) {
        (Ty::Int, Ty::Int) => ints_type(op),
        (Ty::Bool, Ty::Bool) => truths_type(op),
        _ => None,
    }
}

/// The type of an imported operator.
pub fn imported_type(left: Option<Ty>, right: Option<Ty>) -> Option<Ty>
    ensures { result ≡ both_types imported_type left right }
{
    match (left?, right?) {
        (Ty::Int, Ty::Int) => Some(Ty::Int),
        _ => None,
    }
}

/// The type that two parts share.
pub fn shared_type(left: Option<Ty>, right: Option<Ty>) -> Option<Ty>
    ensures { result ≡ both_types shared_type left right }
{
    match (left?, right?) {
        (Ty::Int, Ty::Int) => Some(Ty::Int),
        (Ty::Bool, Ty::Bool) => Some(Ty::Bool),
        _ => None,
    }
}

/// The type of a form whose condition has the first type.
pub fn under_bool(condition: Option<Ty>, ty: Option<Ty>) -> Option<Ty>
    ensures { result ≡ under_bool condition ty }
{
    match condition {
        Some(Ty::Bool) => ty,
        _ => None,
    }
}
