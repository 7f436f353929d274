// The text of the functions at the head of an emitted file.

ghost use Rattle.std.specs.Prelude.{◌≡◌, ◌++◌, ◌||◌, OnOk, codes, decimal};
ghost use Rattle.lt_c.specs.Head.{helper_body};
ghost use Rattle.lt_c.specs.Text.{helper_text};
ghost use Rattle.lt_c.specs.HeadText.{local_text, arithmetic_text, comparison_text, aid_text, term_text, act_text, head_body_text, aid_type, aid_parameter, aid_function, helper_function, aid_if, helper_if, needs_signed, aids_text, sums_text, others_text, file_head_text};
ghost use Rattle.lt_c.specs.HeadViews.{local_of, arithmetic_of, comparison_of, aid_of, term_of, act_of};
ghost use Rattle.lt_c.specs.Views.{helper_of};

use crate::bodies::{aid_term, helper_act, helper_term};
use crate::calls::Calls;
use crate::printing::{deeper, function_text, two};
use crate::spelling::{integer, number};
use crate::terms::{Aid, Arithmetic, Comparison, Step, Term, Variable};
use crate::trees::Function;
use lt_base::{List, Memory};
use std::alloc::Global;

fn local_text(x: Variable) -> &'static [u8]
    ensures { result.now ≡ local_text (local_of x) }
{
    match x {
        Variable::A => b"a",
        Variable::B => b"b",
        Variable::X => b"x",
        Variable::Y => b"y",
        Variable::Z => b"z",
    }
}

fn arithmetic_text(o: Arithmetic) -> &'static [u8]
    ensures { result.now ≡ arithmetic_text (arithmetic_of o) }
{
    match o {
        Arithmetic::AddBits => b" + ",
        Arithmetic::SubtractBits | Arithmetic::Subtract => b" - ",
        Arithmetic::MultiplyBits => b" * ",
        Arithmetic::Divide => b" / ",
        Arithmetic::BitsRest | Arithmetic::Rest => b" % ",
    }
}

fn comparison_text(o: Comparison) -> &'static [u8]
    ensures { result.now ≡ comparison_text (comparison_of o) }
{
    match o {
        Comparison::Equal => b" == ",
        Comparison::Less => b" < ",
        Comparison::Most | Comparison::MostBits => b" <= ",
    }
}

fn aid_text(k: Aid) -> &'static [u8]
    ensures { result.now ≡ aid_text (aid_of k) }
{
    match k {
        Aid::Signed => b"lt_signed(",
        Aid::Negative => b"lt_neg(",
        Aid::Size => b"lt_size(",
    }
}

fn aid_type(k: Aid) -> &'static [u8]
    ensures { result.now ≡ aid_type (aid_of k) }
{
    match k {
        Aid::Signed | Aid::Negative => b"\nstatic inline int64_t ",
        Aid::Size => b"\nstatic inline uint64_t ",
    }
}

fn aid_parameter(k: Aid) -> &'static [u8]
    ensures { result.now ≡ aid_parameter (aid_of k) }
{
    match k {
        Aid::Signed => b"uint64_t a",
        Aid::Negative | Aid::Size => b"int64_t a",
    }
}

fn bits(out: &mut List<u8>, n: u64) -> Result<(), Memory>
    ensures { OnOk result (out.new ≡ out.old ++ (codes "UINT64_C(" ++ (decimal n ++ codes ")"))) }
{
    out.extend(b"UINT64_C(")?;
    number(out, n)?;
    out.extend(b")")
}

// Appends an expression.
#[cycle(term)]
fn term(out: &mut List<u8>, e: &Term) -> Result<(), Memory>
    ensures { OnOk result (out.new ≡ out.old ++ term_text (term_of e.now)) }
{
    match e {
        Term::Local(x) => out.extend(local_text(*x)),
        Term::Int(n) => integer(out, *n),
        Term::Bits(n) => bits(out, *n),
        Term::ToBits(a) => term_after(out, b"(uint64_t)", a),
        Term::ToInt(a) => term_after(out, b"(int64_t)", a),
        Term::Join(o, a, b) => {
            term_after(out, b"(", a)?;
            term_after(out, arithmetic_text(*o), b)?;
            out.extend(b")")
        }
        Term::Choice(o, a, b, c, d) => {
            term_after(out, b"((", a)?;
            term_after(out, comparison_text(*o), b)?;
            term_after(out, b") ? ", c)?;
            term_after(out, b" : ", d)?;
            out.extend(b")")
        }
        Term::Call(k, a) => {
            term_after(out, aid_text(*k), a)?;
            out.extend(b")")
        }
    }
}

// Appends a text, and behind it an expression.
#[cycle(term)]
fn term_after(out: &mut List<u8>, before: &[u8], e: &Term) -> Result<(), Memory>
    ensures { OnOk result (out.new ≡ out.old ++ (before.now ++ term_text (term_of e.now))) }
{
    out.extend(before)?;
    term(out, e)
}

// Appends what a variable becomes.
fn set_to(out: &mut List<u8>, x: Variable, e: &Term) -> Result<(), Memory>
    ensures { OnOk result (out.new ≡ out.old ++ (local_text (local_of x) ++ (codes " = " ++ (term_text (term_of e.now) ++ codes ";\n")))) }
{
    out.extend(local_text(x))?;
    term_after(out, b" = ", e)?;
    out.extend(b";\n")
}

// Appends the condition of a loop.
fn not_zero(out: &mut List<u8>, x: Variable) -> Result<(), Memory>
    ensures { OnOk result (out.new ≡ out.old ++ (local_text (local_of x) ++ codes " != UINT64_C(0)) {\n")) }
{
    two(out, local_text(x), b" != UINT64_C(0)) {\n")
}

// Appends the head of a loop.
fn loop_head(out: &mut List<u8>, indent: &[u8], x: Variable) -> Result<(), Memory>
    ensures { OnOk result (out.new ≡ out.old ++ (indent.now ++ (codes "while (" ++ (local_text (local_of x) ++ codes " != UINT64_C(0)) {\n")))) }
{
    two(out, indent, b"while (")?;
    not_zero(out, x)
}

// Appends a statement, with so much before each of its lines.
fn step(alloc: Global, out: &mut List<u8>, indent: &[u8], s: &Step) -> Result<(), Memory>
    ensures { OnOk result (out.new ≡ out.old ++ act_text indent.now (act_of s.now)) }
{
    match s {
        Step::Skip => Ok(()),
        Step::Declare(x, e) => {
            two(out, indent, b"uint64_t ")?;
            set_to(out, *x, e)
        }
        Step::Set(x, e) => {
            out.extend(indent)?;
            set_to(out, *x, e)
        }
        Step::Both(a, b) => {
            step(alloc, out, indent, a)?;
            step(alloc, out, indent, b)
        }
        Step::While(x, a) => {
            let inner = deeper(alloc, indent)?;
            loop_head(out, indent, *x)?;
            step(alloc, out, inner.as_slice(), a)?;
            two(out, indent, b"}\n")
        }
    }
}

// Appends what a function returns.
fn returned(out: &mut List<u8>, gives: &Term) -> Result<(), Memory>
    ensures { OnOk result (out.new ≡ out.old ++ (codes "    return " ++ (term_text (term_of gives.now) ++ codes ";\n}\n"))) }
{
    term_after(out, b"    return ", gives)?;
    out.extend(b";\n}\n")
}

// Appends a function behind its parameters.
fn body(alloc: Global, out: &mut List<u8>, does: &Step, gives: &Term) -> Result<(), Memory>
    ensures { OnOk result (out.new ≡ out.old ++ head_body_text (record { does = act_of does.now; gives = term_of gives.now })) }
{
    out.extend(b")\n{\n")?;
    step(alloc, out, b"    ", does)?;
    returned(out, gives)
}

// Appends a function that others call.
fn aid_function(alloc: Global, out: &mut List<u8>, k: Aid) -> Result<(), Memory>
    ensures { OnOk result (out.new ≡ out.old ++ aid_function (aid_of k)) }
{
    let gives = aid_term(alloc, k)?;
    two(out, aid_type(k), aid_text(k))?;
    out.extend(aid_parameter(k))?;
    body(alloc, out, &Step::Skip, &gives)
}

// Appends the name and the parameters of a function of two numbers.
fn helper_name(out: &mut List<u8>, h: Function) -> Result<(), Memory>
    ensures { OnOk result (out.new ≡ out.old ++ (codes "\nstatic inline int64_t " ++ (helper_text (helper_of h) ++ codes "int64_t a, int64_t b"))) }
{
    two(out, b"\nstatic inline int64_t ", function_text(h))?;
    out.extend(b"int64_t a, int64_t b")
}

// Appends it behind these.
fn helper_body(alloc: Global, out: &mut List<u8>, h: Function) -> Result<(), Memory>
    ensures { OnOk result (out.new ≡ out.old ++ head_body_text (helper_body (helper_of h))) }
{
    let does = helper_act(alloc, h)?;
    let gives = helper_term(alloc, h)?;
    body(alloc, out, &does, &gives)
}

// Appends a function of two numbers.
fn helper_function(alloc: Global, out: &mut List<u8>, h: Function) -> Result<(), Memory>
    ensures { OnOk result (out.new ≡ out.old ++ helper_function (helper_of h)) }
{
    helper_name(out, h)?;
    helper_body(alloc, out, h)
}

fn aid_if(alloc: Global, out: &mut List<u8>, wanted: bool, k: Aid) -> Result<(), Memory>
    ensures { OnOk result (out.new ≡ out.old ++ aid_if wanted (aid_of k)) }
{
    if wanted {
        return aid_function(alloc, out, k);
    }
    Ok(())
}

fn helper_if(alloc: Global, out: &mut List<u8>, wanted: bool, h: Function) -> Result<(), Memory>
    ensures { OnOk result (out.new ≡ out.old ++ helper_if wanted (helper_of h)) }
{
    if wanted {
        return helper_function(alloc, out, h);
    }
    Ok(())
}

// Whether a file needs the number of some bits.
fn needs_signed(c: &Calls) -> bool
    ensures { result ≡ needs_signed c.now }
{
    (c.negate || (c.add || c.sub)) || (c.mul || (c.div || c.gcd))
}

// Whether a file needs the negative of a number.
fn needs_negative(c: &Calls) -> bool
    ensures { result ≡ (c.now.negate || c.now.div) }
{
    c.negate || c.div
}

// Appends the functions that others call.
fn aids(alloc: Global, out: &mut List<u8>, c: &Calls) -> Result<(), Memory>
    ensures { OnOk result (out.new ≡ out.old ++ aids_text c.now) }
{
    let signed = needs_signed(c);
    let negative = needs_negative(c);
    aid_if(alloc, out, signed, Aid::Signed)?;
    aid_if(alloc, out, negative, Aid::Negative)?;
    aid_if(alloc, out, c.gcd, Aid::Size)
}

// Appends sums, differences, products and quotients.
fn sums(alloc: Global, out: &mut List<u8>, c: &Calls) -> Result<(), Memory>
    ensures { OnOk result (out.new ≡ out.old ++ sums_text c.now) }
{
    helper_if(alloc, out, c.add, Function::Add)?;
    helper_if(alloc, out, c.sub, Function::Sub)?;
    helper_if(alloc, out, c.mul, Function::Mul)?;
    helper_if(alloc, out, c.div, Function::Div)
}

// Appends the other functions of two numbers.
fn others(alloc: Global, out: &mut List<u8>, c: &Calls) -> Result<(), Memory>
    ensures { OnOk result (out.new ≡ out.old ++ others_text c.now) }
{
    helper_if(alloc, out, c.rest, Function::Mod)?;
    helper_if(alloc, out, c.min, Function::Min)?;
    helper_if(alloc, out, c.max, Function::Max)?;
    helper_if(alloc, out, c.gcd, Function::Gcd)
}

/// Appends the head of a file that makes these calls: the headers, and the functions that it calls. A function that nothing calls is left
/// out, since compilers warn of it.
///
/// # Errors
///
/// When memory is short. What was appended till then stays.
pub fn head(alloc: Global, out: &mut List<u8>, calls: &Calls) -> Result<(), Memory>
    ensures { OnOk result (out.new ≡ out.old ++ file_head_text calls.now) }
{
    out.extend(b"#include <stdbool.h>\n#include <stdint.h>\n")?;
    aids(alloc, out, calls)?;
    sums(alloc, out, calls)?;
    others(alloc, out, calls)
}
