// Which functions at the head step code calls.

ghost use Rattle.std.specs.Prelude.{◌≡◌};
ghost use Rattle.lt_c.specs.Literals.{of_value};
ghost use Rattle.lt_c.specs.Uses.{calling, calls_of_tree, statement_calls};
ghost use Rattle.lt_step.specs.Operand.{expression};
ghost use Rattle.lt_c_step.specs.Translate.{of_imported, of_expression, of_lets, of_keeps};
ghost use Rattle.lt_c_step.specs.Written.{unary_calls, binary_calls};

use lt_base::{Bin, Imp, Un, Value};
use lt_c::{Calls, Function, calling, calls_and, negating, no_calls};
use lt_step::{Keep, Let, Operand};

fn literal_calls(v: Value) -> Calls
    ensures { result ≡ calls_of_tree (of_value v) }
{
    match v {
        Value::Int(_) | Value::Bool(_) => no_calls(),
    }
}

// The calls of an operator with those of its operand.
fn unary_calls(op: Un, a: Calls) -> Calls
    ensures { result ≡ unary_calls op a }
{
    match op {
        Un::Neg => calls_and(negating(), a),
        Un::Not => a,
    }
}

// The calls of an operator, beside those of its operands.
fn own_calls(op: Bin) -> Calls
    ensures { result ≡ binary_calls op }
{
    match op {
        Bin::Add => calling(Function::Add),
        Bin::Sub => calling(Function::Sub),
        Bin::Mul => calling(Function::Mul),
        Bin::Div => calling(Function::Div),
        Bin::Mod => calling(Function::Mod),
        _ => no_calls(),
    }
}

fn imported_calls(op: Imp) -> Calls
    ensures { result ≡ calling (of_imported op) }
{
    match op {
        Imp::Min => calling(Function::Min),
        Imp::Max => calling(Function::Max),
        Imp::Gcd => calling(Function::Gcd),
    }
}

/// The calls in an operand.
#[tactic(auto, using(crate::proofs::Calling::binary_calls_are, crate::proofs::Calling::unary_calls_are))]
pub fn operand_calls(e: &Operand) -> Calls
    ensures { result ≡ calls_of_tree (of_expression (expression e.now)) }
{
    match e {
        Operand::Lit(v) => literal_calls(*v),
        Operand::Slot(_) => no_calls(),
        Operand::Un(op, a) => unary_calls(*op, operand_calls(a)),
        Operand::Bin(op, a, b) => calls_and(
            own_calls(*op),
            calls_and(operand_calls(a), operand_calls(b)),
        ),
        Operand::Imported(op, a, b) => {
            let both = calls_and(operand_calls(a), operand_calls(b));
            calls_and(imported_calls(*op), both)
        }
        Operand::If(c, a, b) => {
            let both = calls_and(operand_calls(a), operand_calls(b));
            calls_and(operand_calls(c), both)
        }
        Operand::When(a, _, _) => operand_calls(a),
        Operand::Merge(_, a, b) => {
            let both = calls_and(operand_calls(a), operand_calls(b));
            calls_and(no_calls(), both)
        }
    }
}

// The calls in a let, and in a keep.
fn let_calls(l: &Let) -> Calls
    ensures { result ≡ calls_of_tree (of_expression l.now.operand) }
{
    operand_calls(&l.operand)
}

fn keep_calls(k: &Keep) -> Calls
    ensures { result ≡ calls_of_tree (of_expression k.now.operand) }
{
    operand_calls(&k.operand)
}

/// The calls in lets.
pub fn lets_calls(ls: &[Let]) -> Calls
    ensures { result ≡ statement_calls (of_lets ls.now) }
{
    let mut all = no_calls();
    'lets: for l in ls {
        all = calls_and(all, let_calls(l));
    }
    all
}

/// The calls in keeps.
pub fn keeps_calls(ks: &[Keep]) -> Calls
    ensures { result ≡ statement_calls (of_keeps ks.now) }
{
    let mut all = no_calls();
    'keeps: for k in ks {
        all = calls_and(all, keep_calls(k));
    }
    all
}
