// What the operators answer.

ghost use Rattle.std.specs.Prelude.{◌≡◌, nat_abs, pos};
ghost use Rattle.std.specs.Int.{IsGcd};
ghost use Rattle.lt_base.specs.Operators.{op1 as op1_table, op2 as op2_table, ints, truths, imp as imp_table, quotient, remainder, gcd as gcd_of};

use crate::slot::Slot;
use crate::{Bin, Imp, Un, Value};

/// An operator of one operand, and none exactly where the operand's type is wrong.
pub fn op1(op: Un, a: Value) -> Option<Value>
    ensures { result ≡ op1_table op a }
{
    match (op, a) {
        (Un::Neg, Value::Int(a)) => Some(Value::Int(a.wrapping_neg())),
        (Un::Not, Value::Bool(a)) => Some(Value::Bool(!a)),
        _ => None,
    }
}

/// The quotient, cut off towards zero, and 0 where the divisor is 0.
#[inline(always)]
pub fn quotient(a: i64, b: i64) -> i64
    ensures { result ≡ quotient a b }
{
    if b == 0 { 0 } else { a.wrapping_div(b) }
}

/// What that quotient leaves, and the dividend where the divisor is 0.
#[inline(always)]
pub fn remainder(a: i64, b: i64) -> i64
    ensures { result ≡ remainder a b }
{
    if b == 0 { a } else { a.wrapping_rem(b) }
}

pub(crate) fn on_ints(op: Bin, a: i64, b: i64) -> Slot
    ensures { result ≡ ints op a b }
{
    match op {
        Bin::Add => Slot::number(a.wrapping_add(b)),
        Bin::Sub => Slot::number(a.wrapping_sub(b)),
        Bin::Mul => Slot::number(a.wrapping_mul(b)),
        Bin::Div => Slot::number(quotient(a, b)),
        Bin::Mod => Slot::number(remainder(a, b)),
        Bin::Eq => Slot::truth_value(a == b),
        Bin::Ne => Slot::truth_value(a != b),
        Bin::Lt => Slot::truth_value(a < b),
        Bin::Le => Slot::truth_value(a <= b),
        Bin::Gt => Slot::truth_value(a > b),
        Bin::Ge => Slot::truth_value(a >= b),
        Bin::And | Bin::Or | Bin::Xor | Bin::Implies => Slot::empty(),
    }
}

fn on_truths(op: Bin, a: bool, b: bool) -> Option<Value>
    ensures { result ≡ truths op a b }
{
    match op {
        Bin::Eq => Some(Value::Bool(a == b)),
        Bin::Ne => Some(Value::Bool(a != b)),
        Bin::And => Some(Value::Bool(a && b)),
        Bin::Or => Some(Value::Bool(a || b)),
        Bin::Xor => Some(Value::Bool(a != b)),
        Bin::Implies => Some(Value::Bool(!a || b)),
        _ => None,
    }
}

/// An operator of two operands, and none exactly where an operand's type is wrong.
pub fn op2(op: Bin, a: Value, b: Value) -> Option<Value>
    ensures { result ≡ op2_table op a b }
{
    match (a, b) {
        (Value::Int(a), Value::Int(b)) => on_ints(op, a, b).value(),
        (Value::Bool(a), Value::Bool(b)) => on_truths(op, a, b),
        _ => None,
    }
}

fn gcd(a: u64, b: u64) -> u64
    ensures { result ≡ gcd_of a b }
{
    let mut x = a;
    let mut y = b;
    while y != 0 {
        let r = x % y;
        x = y;
        y = r;
    }
    x
}

/// An imported operator.
pub fn imp(op: Imp, a: i64, b: i64) -> i64
    ensures value { result ≡ imp_table op a b }
    // The table's divisor is the greatest that is common to both.
    ensures divisor { IsGcd (nat_abs a) (nat_abs b) (gcd_of (nat_abs a) (nat_abs b)) }
{
    match op {
        Imp::Min => a.min(b),
        Imp::Max => a.max(b),
        Imp::Gcd => gcd(a.unsigned_abs(), b.unsigned_abs()).cast_signed(),
    }
}
