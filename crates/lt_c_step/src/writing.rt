// The text of the statements of step code.

ghost use Rattle.std.specs.Prelude.{◌≡◌, ◌++◌, ◌<◌, OnOk, codes, reverse};
ghost use Rattle.lt_step.specs.Operand.{expression};
ghost use Rattle.lt_c.specs.Tree.{assign, slot as place};
ghost use Rattle.lt_c.specs.Text.{spelled, tree_text, condition_text, conditions_text, statement_text};
ghost use Rattle.lt_c_step.specs.Written.{before_one, before_two, between, before_imported, and_before, conditions_so_far};
ghost use Rattle.lt_c_step.specs.Translate.{of_expression, of_let, of_keep, of_lets, of_keeps, of_firsts, under};
ghost use Rattle.lt_c.specs.Literals.{of_value};

use lt_base::{Bin, Clock, Decl, Imp, List, Memory, Un, Value};
use lt_c::{value, variable};
use lt_step::{Keep, Let, Operand};

// What stands before the operand of an operator.
fn before_one(op: Un) -> &'static [u8]
    ensures { result.now ≡ before_one op }
{
    match op {
        Un::Neg => b"lt_neg(",
        Un::Not => b"(!",
    }
}

// What stands before the operands of an operator of two.
fn before(op: Bin) -> &'static [u8]
    ensures { result.now ≡ before_two op }
{
    match op {
        Bin::Add => b"lt_add(",
        Bin::Sub => b"lt_sub(",
        Bin::Mul => b"lt_mul(",
        Bin::Div => b"lt_div(",
        Bin::Mod => b"lt_mod(",
        Bin::Implies => b"((!",
        Bin::Eq | Bin::Ne | Bin::Lt | Bin::Le | Bin::Gt | Bin::Ge | Bin::And | Bin::Or | Bin::Xor =>
            b"(",
    }
}

// What stands between them.
fn between(op: Bin) -> &'static [u8]
    ensures { result.now ≡ between op }
{
    match op {
        Bin::Add | Bin::Sub | Bin::Mul | Bin::Div | Bin::Mod => b", ",
        Bin::Eq => b" == ",
        Bin::Ne => b" != ",
        Bin::Lt => b" < ",
        Bin::Le => b" <= ",
        Bin::Gt => b" > ",
        Bin::Ge => b" >= ",
        Bin::And => b" && ",
        Bin::Or => b" || ",
        Bin::Xor => b" != ",
        Bin::Implies => b") || ",
    }
}

fn before_imported(op: Imp) -> &'static [u8]
    ensures { result.now ≡ before_imported op }
{
    match op {
        Imp::Min => b"lt_min(",
        Imp::Max => b"lt_max(",
        Imp::Gcd => b"lt_gcd(",
    }
}

// Appends the head of a choice by a variable.
fn chosen_by(out: &mut List<u8>, decls: &[Decl], c: u32) -> Result<(), Memory>
    ensures { OnOk result (out.new ≡ out.old ++ (codes "(" ++ spelled decls.now (place c))) }
{
    out.extend(b"(")?;
    variable(out, decls, c)
}

// Appends a literal.
fn literal(out: &mut List<u8>, decls: &[Decl], v: Value) -> Result<(), Memory>
    ensures { OnOk result (out.new ≡ out.old ++ tree_text (spelled decls.now) (of_value v)) }
{
    let _names = decls;
    value(out, v)
}

/// Appends an operand, by the declarations of the part that it is of.
///
/// # Errors
///
/// When memory is short. What was appended till then stays: so it is with all writers of this crate.
#[cycle(expression)]
pub fn expression(out: &mut List<u8>, decls: &[Decl], e: &Operand) -> Result<(), Memory>
    ensures { OnOk result (out.new ≡ out.old ++ tree_text (spelled decls.now) (of_expression (expression e.now))) }
{
    match e {
        Operand::Lit(v) => literal(out, decls, *v),
        Operand::Slot(x) => variable(out, decls, *x),
        Operand::Un(op, a) => {
            shown_after(out, decls, before_one(*op), a)?;
            out.extend(b")")
        }
        Operand::Bin(op, a, b) => {
            shown_after(out, decls, before(*op), a)?;
            shown_after(out, decls, between(*op), b)?;
            out.extend(b")")
        }
        Operand::Imported(op, a, b) => {
            shown_after(out, decls, before_imported(*op), a)?;
            shown_after(out, decls, b", ", b)?;
            out.extend(b")")
        }
        Operand::If(c, a, b) => {
            shown_after(out, decls, b"(", c)?;
            shown_after(out, decls, b" ? ", a)?;
            shown_after(out, decls, b" : ", b)?;
            out.extend(b")")
        }
        Operand::When(a, _, _) => expression(out, decls, a),
        Operand::Merge(c, a, b) => {
            chosen_by(out, decls, *c)?;
            shown_after(out, decls, b" ? ", a)?;
            shown_after(out, decls, b" : ", b)?;
            out.extend(b")")
        }
    }
}

// Appends a text, and behind it an operand.
#[cycle(expression)]
fn shown_after(out: &mut List<u8>, decls: &[Decl], before: &[u8], e: &Operand) -> Result<(), Memory>
    ensures { OnOk result (out.new ≡ out.old ++ (before.now ++ tree_text (spelled decls.now) (of_expression (expression e.now)))) }
{
    out.extend(before)?;
    expression(out, decls, e)
}

/// Appends a slot of a truth value, negated where it is to be false.
pub fn condition(out: &mut List<u8>, decls: &[Decl], c: u32, b: bool) -> Result<(), Memory>
    ensures { OnOk result (out.new ≡ out.old ++ condition_text (spelled decls.now) c b) }
{
    if !b {
        out.extend(b"!")?;
    }
    variable(out, decls, c)
}

// Appends a condition, with `&&` before it where it is not the first.
fn next_condition(
    out: &mut List<u8>,
    decls: &[Decl],
    i: usize,
    pair: (u32, bool),
) -> Result<(), Memory>
    ensures { OnOk result (out.new ≡ out.old ++ (and_before i ++ condition_text (spelled decls.now) pair.0 pair.1)) }
{
    if i > 0 {
        out.extend(b" && ")?;
    }
    condition(out, decls, pair.0, pair.1)
}

// Appends conditions, the first of the list first.
fn joined(out: &mut List<u8>, decls: &[Decl], steps: &[(u32, bool)]) -> Result<(), Memory>
    ensures { OnOk result (out.new ≡ out.old ++ conditions_so_far (spelled decls.now) (reverse steps.now)) }
{
    'steps: for (i, pair) in steps.iter().enumerate() {
        next_condition(out, decls, i, *pair)?;
    }
    Ok(())
}

/// Appends the conditions of a clock, joined by `&&`; those of the base clock are `true`.
pub fn conditions(out: &mut List<u8>, decls: &[Decl], clock: &Clock) -> Result<(), Memory>
    ensures { OnOk result (out.new ≡ out.old ++ conditions_text (spelled decls.now) clock.now) }
{
    if clock.steps.is_empty() {
        return out.extend(b"true");
    }
    joined(out, decls, clock.steps.as_slice())
}

// Appends an assignment, with so much before it.
fn assignment(
    out: &mut List<u8>,
    decls: &[Decl],
    indent: &[u8],
    slot: u32,
    e: &Operand,
) -> Result<(), Memory>
    ensures { OnOk result (out.new ≡ out.old ++ statement_text (spelled decls.now) indent.now (assign (place slot) (of_expression (expression e.now)))) }
{
    out.extend(indent)?;
    variable(out, decls, slot)?;
    out.extend(b" = ")?;
    expression(out, decls, e)?;
    out.extend(b";\n")
}

// Appends an assignment at the instants of a clock.
fn guarded(
    out: &mut List<u8>,
    decls: &[Decl],
    clock: &Clock,
    slot: u32,
    e: &Operand,
) -> Result<(), Memory>
    ensures { OnOk result (out.new ≡ out.old ++ statement_text (spelled decls.now) (codes "    ") (under clock.now (assign (place slot) (of_expression (expression e.now))))) }
{
    if clock.steps.is_empty() {
        return assignment(out, decls, b"    ", slot, e);
    }
    out.extend(b"    if (")?;
    conditions(out, decls, clock)?;
    out.extend(b") {\n")?;
    assignment(out, decls, b"        ", slot, e)?;
    out.extend(b"    }\n")
}

/// Appends the statement of a let: an assignment, at the instants of its guard.
pub fn statement_of_let(out: &mut List<u8>, decls: &[Decl], l: &Let) -> Result<(), Memory>
    ensures { OnOk result (out.new ≡ out.old ++ statement_text (spelled decls.now) (codes "    ") (of_let l.now)) }
{
    guarded(out, decls, &l.guard, l.slot, &l.operand)
}

/// Appends the statement of a keep: an assignment, at the instants of its guard.
pub fn keep(out: &mut List<u8>, decls: &[Decl], k: &Keep) -> Result<(), Memory>
    ensures { OnOk result (out.new ≡ out.old ++ statement_text (spelled decls.now) (codes "    ") (of_keep k.now)) }
{
    guarded(out, decls, &k.guard, k.slot, &k.operand)
}

/// Appends the statements of lets, in order.
pub fn lets(out: &mut List<u8>, decls: &[Decl], ls: &[Let]) -> Result<(), Memory>
    ensures { OnOk result (out.new ≡ out.old ++ statement_text (spelled decls.now) (codes "    ") (of_lets ls.now)) }
{
    'lets: for l in ls {
        statement_of_let(out, decls, l)?;
    }
    Ok(())
}

/// Appends the statements of keeps, in order.
pub fn keeps(out: &mut List<u8>, decls: &[Decl], ks: &[Keep]) -> Result<(), Memory>
    ensures { OnOk result (out.new ≡ out.old ++ statement_text (spelled decls.now) (codes "    ") (of_keeps ks.now)) }
{
    'keeps: for k in ks {
        keep(out, decls, k)?;
    }
    Ok(())
}

// Appends what a keep begins with.
fn first(out: &mut List<u8>, decls: &[Decl], k: &Keep) -> Result<(), Memory>
    ensures { OnOk result (out.new ≡ out.old ++ statement_text (spelled decls.now) (codes "    ") (assign (place k.now.slot) (of_value k.now.first))) }
{
    out.extend(b"    ")?;
    variable(out, decls, k.slot)?;
    out.extend(b" = ")?;
    literal(out, decls, k.first)?;
    out.extend(b";\n")
}

/// Appends what keeps hold before the first instant.
pub fn firsts(out: &mut List<u8>, decls: &[Decl], ks: &[Keep]) -> Result<(), Memory>
    ensures { OnOk result (out.new ≡ out.old ++ statement_text (spelled decls.now) (codes "    ") (of_firsts ks.now)) }
{
    'firsts: for k in ks {
        first(out, decls, k)?;
    }
    Ok(())
}
