// Equations as comments above their statements.

ghost use Rattle.std.specs.Prelude.{◌≡◌, ◌++◌, OnOk, codes, decimal};
ghost use Rattle.lt_step.specs.Operand.{expression};
ghost use Rattle.lt_c.specs.Tree.{noted};
ghost use Rattle.lt_c.specs.Text.{spelled, statement_text};
ghost use Rattle.lt_c_step.specs.Translate.{of_let};
ghost use Rattle.lt_c_heads.specs.Words.{indent};
ghost use Rattle.lt_c_bodies.specs.Equations.{named_or_numbered, told_variable, told_integer, told_value, told_unary, told_binary, told_imported, told_clock, told_expression, told_equation, told_lets};

use lt_base::{Bin, Decl, Imp, List, Memory, Un, Value};
use lt_c::{name_in, number};
use lt_c_step::statement_of_let;
use lt_step::{Let, Operand};

// Appends a name, or the number of what has none.
fn named_or_numbered(out: &mut List<u8>, name: &[u8], x: u32) -> Result<(), Memory>
    ensures { OnOk result (out.new ≡ out.old ++ named_or_numbered name.now x) }
{
    if name.is_empty() {
        out.extend(b"v")?;
        return number(out, u64::from(x));
    }
    out.extend(name)
}

fn variable(out: &mut List<u8>, decls: &[Decl], x: u32) -> Result<(), Memory>
    ensures { OnOk result (out.new ≡ out.old ++ told_variable decls.now x) }
{
    named_or_numbered(out, name_in(decls, x), x)
}

fn negative(out: &mut List<u8>, n: u64) -> Result<(), Memory>
    ensures { OnOk result (out.new ≡ out.old ++ (codes "-" ++ decimal n)) }
{
    out.extend(b"-")?;
    number(out, n)
}

fn integer(out: &mut List<u8>, n: i64) -> Result<(), Memory>
    ensures { OnOk result (out.new ≡ out.old ++ told_integer n) }
{
    if n >= 0 {
        return number(out, n.unsigned_abs());
    }
    negative(out, n.unsigned_abs())
}

fn value(out: &mut List<u8>, v: Value) -> Result<(), Memory>
    ensures { OnOk result (out.new ≡ out.old ++ told_value v) }
{
    match v {
        Value::Int(n) => integer(out, n),
        Value::Bool(true) => out.extend(b"true"),
        Value::Bool(false) => out.extend(b"false"),
    }
}

// What stands before the operand of an operator.
fn before(op: Un) -> &'static [u8]
    ensures { result.now ≡ told_unary op }
{
    match op {
        Un::Neg => b"(-",
        Un::Not => b"(not ",
    }
}

// What stands between the operands of one.
fn between(op: Bin) -> &'static [u8]
    ensures { result.now ≡ told_binary op }
{
    match op {
        Bin::Add => b" + ",
        Bin::Sub => b" - ",
        Bin::Mul => b" * ",
        Bin::Div => b" div ",
        Bin::Mod => b" mod ",
        Bin::Eq => b" = ",
        Bin::Ne => b" <> ",
        Bin::Lt => b" < ",
        Bin::Le => b" <= ",
        Bin::Gt => b" > ",
        Bin::Ge => b" >= ",
        Bin::And => b" and ",
        Bin::Or => b" or ",
        Bin::Xor => b" xor ",
        Bin::Implies => b" => ",
    }
}

fn called(op: Imp) -> &'static [u8]
    ensures { result.now ≡ told_imported op }
{
    match op {
        Imp::Min => b"min(",
        Imp::Max => b"max(",
        Imp::Gcd => b"gcd(",
    }
}

// Appends the clock of a sample.
fn clock(out: &mut List<u8>, decls: &[Decl], c: u32, b: bool) -> Result<(), Memory>
    ensures { OnOk result (out.new ≡ out.old ++ told_clock decls.now c b) }
{
    if b {
        out.extend(b" when ")?;
    } else {
        out.extend(b" when not ")?;
    }
    variable(out, decls, c)?;
    out.extend(b")")
}

// Appends the head of a merge.
fn merged_by(out: &mut List<u8>, decls: &[Decl], c: u32) -> Result<(), Memory>
    ensures { OnOk result (out.new ≡ out.old ++ (codes "(merge " ++ told_variable decls.now c)) }
{
    out.extend(b"(merge ")?;
    variable(out, decls, c)
}

// Appends a literal.
fn literal(out: &mut List<u8>, decls: &[Decl], v: Value) -> Result<(), Memory>
    ensures { OnOk result (out.new ≡ out.old ++ told_value v) }
{
    let _names = decls;
    value(out, v)
}

#[cycle(told)]
fn told(out: &mut List<u8>, decls: &[Decl], e: &Operand) -> Result<(), Memory>
    ensures { OnOk result (out.new ≡ out.old ++ told_expression decls.now (expression e.now)) }
{
    match e {
        Operand::Lit(v) => literal(out, decls, *v),
        Operand::Slot(x) => variable(out, decls, *x),
        Operand::Un(op, a) => {
            told_after(out, decls, before(*op), a)?;
            out.extend(b")")
        }
        Operand::Bin(op, a, b) => {
            told_after(out, decls, b"(", a)?;
            told_after(out, decls, between(*op), b)?;
            out.extend(b")")
        }
        Operand::Imported(op, a, b) => {
            told_after(out, decls, called(*op), a)?;
            told_after(out, decls, b", ", b)?;
            out.extend(b")")
        }
        Operand::If(c, a, b) => {
            told_after(out, decls, b"(if ", c)?;
            told_after(out, decls, b" then ", a)?;
            told_after(out, decls, b" else ", b)?;
            out.extend(b")")
        }
        Operand::When(a, c, b) => {
            told_after(out, decls, b"(", a)?;
            clock(out, decls, *c, *b)
        }
        Operand::Merge(c, a, b) => {
            merged_by(out, decls, *c)?;
            told_after(out, decls, b" ", a)?;
            told_after(out, decls, b" ", b)?;
            out.extend(b")")
        }
    }
}

// Appends a text, and behind it an expression.
#[cycle(told)]
fn told_after(out: &mut List<u8>, decls: &[Decl], before: &[u8], e: &Operand) -> Result<(), Memory>
    ensures { OnOk result (out.new ≡ out.old ++ (before.now ++ told_expression decls.now (expression e.now))) }
{
    out.extend(before)?;
    told(out, decls, e)
}

fn equation(out: &mut List<u8>, decls: &[Decl], l: &Let) -> Result<(), Memory>
    ensures { OnOk result (out.new ≡ out.old ++ told_equation decls.now l.now) }
{
    variable(out, decls, l.slot)?;
    told_after(out, decls, b" = ", &l.operand)
}

// Appends a let under its equation.
fn told_let(out: &mut List<u8>, decls: &[Decl], l: &Let) -> Result<(), Memory>
    ensures { OnOk result (out.new ≡ out.old ++ statement_text (spelled decls.now) indent (noted (told_equation decls.now l.now) (of_let l.now))) }
{
    out.extend(b"    ")?;
    out.extend(b"/* ")?;
    equation(out, decls, l)?;
    out.extend(b" */\n")?;
    statement_of_let(out, decls, l)
}

/// Appends the statements of lets, each under its equation.
pub(crate) fn told_lets(out: &mut List<u8>, decls: &[Decl], ls: &[Let]) -> Result<(), Memory>
    ensures { OnOk result (out.new ≡ out.old ++ statement_text (spelled decls.now) indent (told_lets decls.now ls.now)) }
{
    'lets: for l in ls {
        told_let(out, decls, l)?;
    }
    Ok(())
}
