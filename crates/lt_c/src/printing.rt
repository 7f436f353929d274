// The text of trees.

ghost use Rattle.std.specs.Prelude.{◌≡◌, ◌++◌, OnOk, IfOk, codes};
ghost use Rattle.lt_c.specs.Text.{helper_text, operator_text, tree_text, open_text, has_else, closing_text, statement_text};
ghost use Rattle.lt_c.specs.Tree.{assign, nothing};
ghost use Rattle.lt_c.specs.Spelled.{node_at, spelled_in};
ghost use Rattle.lt_c.specs.Views.{place_in, helper_of, viewed_operator, tree_of, statement_of};

use crate::spelling::{integer, name_in, number, truth, variable};
use crate::trees::{Action, Expression, Function, Symbol, Variable};
use lt_base::{Decl, List, Memory, Name};
use std::alloc::Global;

/// The name of a node by its number, and of another number nothing.
pub fn node_name(nodes: &[Name], j: u32) -> &[u8]
    ensures { result.now ≡ node_at nodes.now j }
{
    if (j as usize) < nodes.len() {
        nodes[j as usize].as_str().as_bytes()
    } else {
        b""
    }
}

// Appends a text and the name of a node.
fn named(out: &mut List<u8>, before: &[u8], nodes: &[Name], j: u32) -> Result<(), Memory>
    ensures { OnOk result (out.new ≡ out.old ++ (before.now ++ node_at nodes.now j)) }
{
    out.extend(before)?;
    out.extend(node_name(nodes, j))
}

/// Appends a variable of an emitted file, by the declarations of the node's part, those of the whole program, and the names of the nodes.
pub fn place(
    out: &mut List<u8>,
    decls: &[Decl],
    main: &[Decl],
    nodes: &[Name],
    p: Variable,
) -> Result<(), Memory>
    ensures { OnOk result (out.new ≡ out.old ++ spelled_in decls.now main.now nodes.now (place_in p)) }
{
    match p {
        Variable::Slot(x) => variable(out, decls, x),
        Variable::Did => out.extend(b"did"),
        Variable::More => out.extend(b"more"),
        Variable::Phase => out.extend(b"phase"),
        Variable::Left => out.extend(b"left"),
        Variable::Sent => out.extend(b"sent"),
        Variable::Executed => out.extend(b"executed"),
        Variable::Bit(j) => {
            named(out, b"data_", nodes, j)?;
            out.extend(b".bit")
        }
        Variable::Read(j) => named(out, b"read_", nodes, j),
        Variable::Payload(j, k) => {
            named(out, b"data_", nodes, j)?;
            out.extend(b".m")?;
            number(out, u64::from(k))
        }
        Variable::Ack(j) => named(out, b"ack_", nodes, j),
        Variable::Seen(j) => named(out, b"seen_", nodes, j),
        Variable::Input(i) => {
            out.extend(b"in->in_")?;
            out.extend(name_in(main, i))
        }
        Variable::Output(y) => two(out, b"out->out_", name_in(main, y)),
        Variable::Has(y) => two(out, b"out->has_", name_in(main, y)),
        Variable::MessageBit => out.extend(b"message->bit"),
        Variable::Message(k) => {
            out.extend(b"message->m")?;
            number(out, u64::from(k))
        }
        Variable::AnswerBit => out.extend(b"bit"),
        Variable::Executions => out.extend(b"executions"),
        Variable::Sendings => out.extend(b"sendings"),
        Variable::Newest(j) => {
            named(out, b"data_", nodes, j)?;
            out.extend(b".number")
        }
        Variable::Answered(j) => named(out, b"answered_", nodes, j),
        Variable::MessageNumber => out.extend(b"message->number"),
        Variable::AnswerNumber => out.extend(b"number"),
        Variable::Posted(j, k) => {
            named(out, b"posted_", nodes, j)?;
            out.extend(b".m")?;
            number(out, u64::from(k))
        }
    }
}

/// The name of a function at the head, up to its arguments.
pub(crate) fn function_text(h: Function) -> &'static [u8]
    ensures { result.now ≡ helper_text (helper_of h) }
{
    match h {
        Function::Add => b"lt_add(",
        Function::Sub => b"lt_sub(",
        Function::Mul => b"lt_mul(",
        Function::Div => b"lt_div(",
        Function::Mod => b"lt_mod(",
        Function::Min => b"lt_min(",
        Function::Max => b"lt_max(",
        Function::Gcd => b"lt_gcd(",
    }
}

fn symbol_text(o: Symbol) -> &'static [u8]
    ensures { result.now ≡ operator_text (viewed_operator o) }
{
    match o {
        Symbol::Eq => b" == ",
        Symbol::Ne => b" != ",
        Symbol::Lt => b" < ",
        Symbol::Le => b" <= ",
        Symbol::Gt => b" > ",
        Symbol::Ge => b" >= ",
        Symbol::And => b" && ",
        Symbol::Or => b" || ",
    }
}

/// Appends an expression, with the names that `place` writes.
#[cycle(expression)]
pub fn expression(
    out: &mut List<u8>,
    decls: &[Decl],
    main: &[Decl],
    nodes: &[Name],
    e: &Expression,
) -> Result<(), Memory>
    ensures { OnOk result (out.new ≡ out.old ++ tree_text (spelled_in decls.now main.now nodes.now) (tree_of e.now)) }
{
    match e {
        Expression::Number(n) => integer(out, *n),
        Expression::Truth(b) => truth(out, *b),
        Expression::Var(p) => place(out, decls, main, nodes, *p),
        Expression::Negate(a) => {
            expression_after(out, decls, main, nodes, b"lt_neg(", a)?;
            out.extend(b")")
        }
        Expression::Call(h, a, b) => {
            expression_after(out, decls, main, nodes, function_text(*h), a)?;
            expression_after(out, decls, main, nodes, b", ", b)?;
            out.extend(b")")
        }
        Expression::Not(a) => {
            expression_after(out, decls, main, nodes, b"(!", a)?;
            out.extend(b")")
        }
        Expression::Join(o, a, b) => {
            expression_after(out, decls, main, nodes, b"(", a)?;
            expression_after(out, decls, main, nodes, symbol_text(*o), b)?;
            out.extend(b")")
        }
        Expression::Choice(c, a, b) => {
            expression_after(out, decls, main, nodes, b"(", c)?;
            expression_after(out, decls, main, nodes, b" ? ", a)?;
            expression_after(out, decls, main, nodes, b" : ", b)?;
            out.extend(b")")
        }
    }
}

// Appends a text, and behind it an expression.
#[cycle(expression)]
fn expression_after(
    out: &mut List<u8>,
    decls: &[Decl],
    main: &[Decl],
    nodes: &[Name],
    before: &[u8],
    e: &Expression,
) -> Result<(), Memory>
    ensures { OnOk result (out.new ≡ out.old ++ (before.now ++ tree_text (spelled_in decls.now main.now nodes.now) (tree_of e.now))) }
{
    out.extend(before)?;
    expression(out, decls, main, nodes, e)
}

/// An indentation that is deeper by four.
pub(crate) fn deeper(alloc: Global, indent: &[u8]) -> Result<List<u8>, Memory>
    ensures { IfOk result (λ l. l ≡ codes "    " ++ indent.now) }
{
    let mut out = List::new(alloc);
    out.extend(b"    ")?;
    out.extend(indent)?;
    Ok(out)
}

// Appends an assignment.
fn assigned(
    out: &mut List<u8>,
    decls: &[Decl],
    main: &[Decl],
    nodes: &[Name],
    indent: &[u8],
    p: Variable,
    e: &Expression,
) -> Result<(), Memory>
    ensures { OnOk result (out.new ≡ out.old ++ statement_text (spelled_in decls.now main.now nodes.now) indent.now (assign (place_in p) (tree_of e.now))) }
{
    out.extend(indent)?;
    place(out, decls, main, nodes, p)?;
    out.extend(b" = ")?;
    expression(out, decls, main, nodes, e)?;
    out.extend(b";\n")
}

// Appends an expression where C has parentheses of its own around it.
fn open_expression(
    out: &mut List<u8>,
    decls: &[Decl],
    main: &[Decl],
    nodes: &[Name],
    e: &Expression,
) -> Result<(), Memory>
    ensures { OnOk result (out.new ≡ out.old ++ open_text (spelled_in decls.now main.now nodes.now) (tree_of e.now)) }
{
    match e {
        Expression::Join(o, a, b) => {
            expression(out, decls, main, nodes, a)?;
            expression_after(out, decls, main, nodes, symbol_text(*o), b)
        }
        _ => expression(out, decls, main, nodes, e),
    }
}

// Appends the head of a branch.
fn asked(
    out: &mut List<u8>,
    decls: &[Decl],
    main: &[Decl],
    nodes: &[Name],
    indent: &[u8],
    e: &Expression,
) -> Result<(), Memory>
    ensures { OnOk result (out.new ≡ out.old
        ++ (indent.now ++ (codes "if (" ++ (open_text (spelled_in decls.now main.now nodes.now) (tree_of e.now) ++ codes ") {\n")))) }
{
    out.extend(indent)?;
    out.extend(b"if (")?;
    open_expression(out, decls, main, nodes, e)?;
    out.extend(b") {\n")
}

/// Appends two texts.
pub(crate) fn two(out: &mut List<u8>, a: &[u8], b: &[u8]) -> Result<(), Memory>
    ensures { OnOk result (out.new ≡ out.old ++ (a.now ++ b.now)) }
{
    out.extend(a)?;
    out.extend(b)
}

fn has_else(s: &Action) -> bool
    ensures { result ≡ has_else (statement_of nothing s.now) }
{
    match s {
        Action::Nothing => false,
        _ => true,
    }
}

// Appends the head of a comment's statement.
fn comment(out: &mut List<u8>, indent: &[u8], tree_text: &[u8]) -> Result<(), Memory>
    ensures { OnOk result (out.new ≡ out.old ++ (indent.now ++ (codes "/* " ++ (tree_text.now ++ codes " */\n")))) }
{
    two(out, indent, b"/* ")?;
    two(out, tree_text, b" */\n")
}

/// Appends a statement, with so much before each of its lines, and with the names that `place` writes.
#[cycle(action)]
pub fn action(
    alloc: Global,
    out: &mut List<u8>,
    decls: &[Decl],
    main: &[Decl],
    nodes: &[Name],
    indent: &[u8],
    s: &Action,
) -> Result<(), Memory>
    ensures { OnOk result (out.new ≡ out.old ++ statement_text (spelled_in decls.now main.now nodes.now) indent.now (statement_of nothing s.now)) }
{
    match s {
        Action::Nothing => Ok(()),
        Action::Assign(p, e) => assigned(out, decls, main, nodes, indent, *p, e),
        Action::Branch(e, a, b) => {
            let inner = deeper(alloc, indent)?;
            asked(out, decls, main, nodes, indent, e)?;
            action(alloc, out, decls, main, nodes, inner.as_slice(), a)?;
            otherwise(alloc, out, decls, main, nodes, indent, b)
        }
        Action::Both(a, b) => {
            action(alloc, out, decls, main, nodes, indent, a)?;
            action(alloc, out, decls, main, nodes, indent, b)
        }
        Action::Run => two(out, indent, b"execute();\n"),
        Action::Noted(tree_text, a) => {
            comment(out, indent, tree_text.as_slice())?;
            action(alloc, out, decls, main, nodes, indent, a)
        }
    }
}

// Appends the end of a branch, with what it does otherwise.
#[cycle(action)]
fn otherwise(
    alloc: Global,
    out: &mut List<u8>,
    decls: &[Decl],
    main: &[Decl],
    nodes: &[Name],
    indent: &[u8],
    s: &Action,
) -> Result<(), Memory>
    ensures { OnOk result (out.new ≡ out.old ++ (indent.now ++ closing_text (has_else (statement_of nothing s.now)) indent.now
        (statement_text (spelled_in decls.now main.now nodes.now) (codes "    " ++ indent.now) (statement_of nothing s.now)))) }
{
    if !has_else(s) {
        return two(out, indent, b"}\n");
    }
    let inner = deeper(alloc, indent)?;
    two(out, indent, b"} else {\n")?;
    action(alloc, out, decls, main, nodes, inner.as_slice(), s)?;
    two(out, indent, b"}\n")
}
