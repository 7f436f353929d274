// The canonical text of a tree.
ghost use Rattle.std.specs.Prelude.{◌≡◌, ◌++◌, OnOk, IfOk, codes, map};
ghost use Rattle.lt_tokens.specs.declared.token.Infix.TheVariants as meet;
ghost use Rattle.lt_print.specs.Canonical.{value_form, led, arrow_left, level_of, bare, all_bare, placed, operator, truth_text, when_text, text, texts, clocks_text, decl_text, decls_text, local_lines, locals_text, equation_lines, node_layout, canonical};
ghost use Rattle.lt_base.specs.Limits.{greatest_height};
ghost use Rattle.lt_base.specs.TypeText.{ty_text};
ghost use Rattle.lt_print.specs.Printed.{is_number_term, is_literal, looks_led, head_text, body_text, comma_before, semicolon_before, local_line, equation_line};
ghost use Rattle.lt_syntax.specs.Tree.{tms};
ghost use Rattle.lt_syntax.specs.Program.{Spells};
ghost use Rattle.lt_syntax.specs.Views.{tm_of};

use lt_base::{Bin, List, Memory, Name, Ty, Un, Value, append_number};
use lt_syntax::{DeclText, EqText, NodeText, Term, Tree, left, level, right};
use lt_tokens::Infix;
use std::alloc::Global;

fn truth(out: &mut List<u8>, b: bool) -> Result<(), Memory>
    ensures { OnOk result (out.new ≡ out.old ++ truth_text b) }
{
    if b {
        out.extend(b"true")
    } else {
        out.extend(b"false")
    }
}

/// A literal, with `-` before a negative number.
#[tactic(auto, using(crate::proofs::Printing::signed_form))]
fn value(out: &mut List<u8>, v: Value) -> Result<(), Memory>
    ensures { OnOk result (out.new ≡ out.old ++ text (value_form v)) }
{
    match v {
        Value::Int(n) => append_number(out, n),
        Value::Bool(b) => truth(out, b),
    }
}

/// The level of a term's own form.
fn own_level(t: &Term) -> u8
    ensures { result ≡ level_of (tm_of t.now) }
{
    match t {
        Term::Lit(_) | Term::Var(_) => 12,
        Term::Un(Un::Neg, _) => 10,
        Term::Un(Un::Not, _) => 5,
        Term::Bin(o, _, _) => level(Infix::Operator(*o)),
        Term::When(_, _, _) => 9,
        Term::Merge(_, _, _) | Term::Call(_, _) => 11,
        Term::If(_, _, _) | Term::Fby(_, _) | Term::Follow(_, _) | Term::Arrow(_, _) => 1,
    }
}

/// An operator between its two spaces.
fn spaced_operator(o: Bin) -> &'static [u8]
    ensures { result.now ≡ codes " " ++ (operator (meet.Operator o) ++ codes " ") }
{
    match o {
        Bin::Add => b" + ",
        Bin::Sub => b" - ",
        Bin::Mul => b" * ",
        Bin::Div => b" div ",
        Bin::Mod => b" mod ",
        Bin::Eq => b" = ",
        Bin::Ne => b" <> ",
        Bin::Lt => b" < ",
        Bin::Le => b" <= ",
        Bin::Gt => b" > ",
        Bin::Ge => b" >= ",
        Bin::And => b" and ",
        Bin::Or => b" or ",
        Bin::Xor => b" xor ",
        Bin::Implies => b" => ",
    }
}

fn is_number(t: &Term) -> bool
    ensures { result ≡ is_number_term (tm_of t.now) }
{
    match t {
        Term::Lit(Value::Int(n)) => *n >= 0,
        _ => false,
    }
}

fn is_literal(t: &Term) -> bool
    ensures { result ≡ is_literal (tm_of t.now) }
{
    match t {
        Term::Lit(_) => true,
        _ => false,
    }
}

/// Whether the term would be read as a literal to the left of `fby` or `->`.
fn looks_led(t: &Term) -> bool
    ensures { result ≡ looks_led (tm_of t.now) }
{
    match t {
        Term::Lit(_) => true,
        Term::Un(Un::Neg, a) => is_number(a),
        _ => false,
    }
}

/// The text of a term where the grammar asks for this level.
#[cycle(show)]
fn show(out: &mut List<u8>, l: u8, t: &Term) -> Result<(), Memory>
    ensures { OnOk result (out.new ≡ out.old ++ text (placed l (tm_of t.now))) }
{
    if l <= own_level(t) {
        return inside(out, t);
    }
    out.extend(b"(")?;
    inside(out, t)?;
    out.extend(b")")
}

/// A left side of `fby` or `->`.
#[cycle(show)]
fn left_side(out: &mut List<u8>, t: &Term) -> Result<(), Memory>
    ensures { OnOk result (out.new ≡ out.old ++ text (led (placed 2 (tm_of t.now)))) }
{
    if !looks_led(t) {
        return show(out, 2, t);
    }
    out.extend(b"(")?;
    show(out, 2, t)?;
    out.extend(b")")
}

/// A text, and behind it that of a term where the grammar asks for this level.
#[cycle(show)]
fn show_after(out: &mut List<u8>, before: &[u8], l: u8, t: &Term) -> Result<(), Memory>
    ensures { OnOk result (out.new ≡ out.old ++ before.now ++ text (placed l (tm_of t.now))) }
{
    out.extend(before)?;
    show(out, l, t)
}

/// The text of a term without parentheses around it.
#[cycle(show)]
fn inside(out: &mut List<u8>, t: &Term) -> Result<(), Memory>
    ensures { OnOk result (out.new ≡ out.old ++ text (bare (tm_of t.now))) }
{
    match t {
        Term::Lit(v) => value(out, *v),
        Term::Var(x) => out.extend(x.as_str().as_bytes()),
        Term::Un(Un::Neg, a) => show_after(out, b"-", 11, a),
        Term::Un(Un::Not, a) => show_after(out, b"not ", 5, a),
        Term::Bin(o, a, b) => {
            show(out, left(Infix::Operator(*o)), a)?;
            show_after(out, spaced_operator(*o), right(Infix::Operator(*o)), b)
        }
        Term::If(c, a, b) => {
            show_after(out, b"if ", 1, c)?;
            show_after(out, b" then ", 1, a)?;
            show_after(out, b" else ", 1, b)
        }
        Term::When(a, c, b) => {
            show(out, 9, a)?;
            clock(out, c, *b)
        }
        Term::Merge(c, a, b) => {
            out.extend(b"merge ")?;
            out.extend(c.as_str().as_bytes())?;
            show_after(out, b" ", 12, a)?;
            show_after(out, b" ", 12, b)
        }
        Term::Fby(v, b) => {
            value(out, *v)?;
            show_after(out, b" fby ", 1, b)
        }
        Term::Follow(a, b) => {
            left_side(out, a)?;
            show_after(out, b" fby ", 1, b)
        }
        Term::Arrow(a, b) => {
            arrow_side(out, a)?;
            show_after(out, b" -> ", 1, b)
        }
        Term::Call(f, xs) => {
            out.extend(f.as_str().as_bytes())?;
            out.extend(b"(")?;
            arguments(out, xs)?;
            out.extend(b")")
        }
    }
}

/// The left side of `->`; a literal is one value.
#[cycle(show)]
#[tactic(auto, using(crate::proofs::Printing::arrow_cases))]
fn arrow_side(out: &mut List<u8>, t: &Term) -> Result<(), Memory>
    ensures { OnOk result (out.new ≡ out.old ++ text (arrow_left (tm_of t.now) (placed 2 (tm_of t.now)))) }
{
    if is_literal(t) {
        return inside(out, t);
    }
    left_side(out, t)
}

/// The arguments of a call, separated by a comma and a space.
#[cycle(show)]
fn arguments(out: &mut List<u8>, xs: &[Term]) -> Result<(), Memory>
    ensures { OnOk result (out.new ≡ out.old ++ texts (all_bare (tms (map tm_of xs.now)))) }
{
    'arguments: for (i, x) in xs.iter().enumerate() {
        comma(out, i)?;
        show(out, 1, x)?;
    }
    Ok(())
}

fn comma(out: &mut List<u8>, i: usize) -> Result<(), Memory>
    ensures { OnOk result (out.new ≡ out.old ++ comma_before i) }
{
    if i > 0 { out.extend(b", ") } else { Ok(()) }
}

fn semicolon(out: &mut List<u8>, i: usize) -> Result<(), Memory>
    ensures { OnOk result (out.new ≡ out.old ++ semicolon_before i) }
{
    if i > 0 { out.extend(b"; ") } else { Ok(()) }
}

/// A clock's variable behind `when`.
fn clock(out: &mut List<u8>, c: &Name, b: bool) -> Result<(), Memory>
    ensures { OnOk result (out.new ≡ out.old ++ when_text c.now b) }
{
    if b {
        out.extend(b" when ")?;
    } else {
        out.extend(b" when not ")?;
    }
    out.extend(c.as_str().as_bytes())
}

fn ty(out: &mut List<u8>, t: Ty) -> Result<(), Memory>
    ensures { OnOk result (out.new ≡ out.old ++ ty_text t) }
{
    match t {
        Ty::Int => out.extend(b"int"),
        Ty::Bool => out.extend(b"bool"),
    }
}

fn clocks(out: &mut List<u8>, cs: &[(Name, bool)]) -> Result<(), Memory>
    ensures { OnOk result (out.new ≡ out.old ++ clocks_text cs.now) }
{
    'clocks: for pair in cs {
        clock(out, &pair.0, pair.1)?;
    }
    Ok(())
}

fn decl(out: &mut List<u8>, d: &DeclText) -> Result<(), Memory>
    ensures { OnOk result (out.new ≡ out.old ++ decl_text d.now) }
{
    out.extend(d.name.as_str().as_bytes())?;
    out.extend(b": ")?;
    ty(out, d.ty)?;
    clocks(out, &d.clock)
}

/// Declarations separated by a semicolon and a space.
fn decls(out: &mut List<u8>, ds: &[DeclText]) -> Result<(), Memory>
    ensures { OnOk result (out.new ≡ out.old ++ decls_text ds.now) }
{
    'decls: for (i, d) in ds.iter().enumerate() {
        semicolon(out, i)?;
        decl(out, d)?;
    }
    Ok(())
}

fn line(out: &mut List<u8>, d: &DeclText) -> Result<(), Memory>
    ensures { OnOk result (out.new ≡ out.old ++ local_line d.now) }
{
    out.extend(b"  ")?;
    decl(out, d)?;
    out.extend(b";\n")
}

/// A line for each local.
fn lines(out: &mut List<u8>, ds: &[DeclText]) -> Result<(), Memory>
    ensures { OnOk result (out.new ≡ out.old ++ local_lines ds.now) }
{
    'lines: for d in ds {
        line(out, d)?;
    }
    Ok(())
}

fn locals(out: &mut List<u8>, ds: &[DeclText]) -> Result<(), Memory>
    ensures { OnOk result (out.new ≡ out.old ++ locals_text ds.now) }
{
    if ds.is_empty() {
        return Ok(());
    }
    out.extend(b"var\n")?;
    lines(out, ds)
}

fn equation(out: &mut List<u8>, e: &EqText) -> Result<(), Memory>
    ensures { OnOk result (out.new ≡ out.old ++ equation_line e.now) }
{
    out.extend(b"  ")?;
    out.extend(e.left().as_str().as_bytes())?;
    out.extend(b" = ")?;
    show(out, 1, e.right())?;
    out.extend(b";\n")
}

/// A line for each equation.
fn equations(out: &mut List<u8>, es: &[EqText]) -> Result<(), Memory>
    ensures { OnOk result (out.new ≡ out.old ++ equation_lines es.now) }
{
    'equations: for e in es {
        equation(out, e)?;
    }
    Ok(())
}

fn head(out: &mut List<u8>, n: &NodeText) -> Result<(), Memory>
    ensures { OnOk result (out.new ≡ out.old ++ head_text n.now) }
{
    out.extend(b"node ")?;
    out.extend(n.name.as_str().as_bytes())?;
    out.extend(b"(")?;
    decls(out, &n.ins)
}

fn body(out: &mut List<u8>, n: &NodeText) -> Result<(), Memory>
    ensures { OnOk result (out.new ≡ out.old ++ body_text n.now) }
{
    locals(out, &n.locals)?;
    out.extend(b"let\n")?;
    equations(out, &n.eqs)?;
    out.extend(b"tel\n")
}

fn node(out: &mut List<u8>, n: &NodeText) -> Result<(), Memory>
    ensures { OnOk result (out.new ≡ out.old ++ node_layout n.now) }
{
    head(out, n)?;
    out.extend(b") returns (")?;
    decls(out, &n.outs)?;
    out.extend(b")\n")?;
    body(out, n)?;
    Ok(())
}

fn all_nodes(alloc: Global, ns: &[NodeText]) -> Result<List<u8>, Memory>
    ensures { IfOk result (λ bytes. bytes ≡ canonical ns.now) }
{
    let mut out = List::new(alloc);
    'nodes: for n in ns {
        node(&mut out, n)?;
    }
    Ok(out)
}

/// The canonical text, which spells the tree.
pub fn print(alloc: Global, t: &Tree) -> Result<List<u8>, Memory>
    ensures text { IfOk result (λ bytes. bytes ≡ canonical t.now) }
    ensures spells { IfOk result (λ bytes. Spells greatest_height bytes t.now) }
{
    t.invariant_holds();
    let out = all_nodes(alloc, &t.nodes)?;
    Ok(out)
}
