// Statements of a file, in its spelling.

ghost use Rattle.std.specs.Prelude.{◌≡◌, ◌++◌, ◌<◌, ◌^◌, length, IfOk, OnOk};
ghost use Rattle.lt_c.specs.Tree.{Statement, payload, assign, both, nothing, c_var};
ghost use Rattle.lt_c.specs.Text.{statement_text};
ghost use Rattle.lt_c.specs.Views.{place_in, tree_of, statement_of};
ghost use Rattle.lt_c.specs.Literals.{of_value};
ghost use Rattle.lt_c_control.specs.Inboxes.{filling, taking};
ghost use Rattle.lt_c_bodies.specs.Starts.{first_values};
ghost use Rattle.lt_c_heads.specs.Words.{spelling, indent};

use lt_base::{Decl, List, Memory, Name, Value};
use lt_c::{Action, Expression, Variable, action};
use lt_c_heads::{Carried, NodeFile};
use std::alloc::Global;

/// One after the other.
pub(crate) fn then(alloc: Global, a: Action, b: Action) -> Result<Action, Memory>
    ensures { IfOk result (λ s. (run : Statement) → statement_of run s ≡ both (statement_of run a) (statement_of run b)) }
{
    let a = Box::new(alloc, a)?;
    let b = Box::new(alloc, b)?;
    Ok(Action::Both(a, b))
}

/// A variable becomes what another is.
pub(crate) fn copied(p: Variable, q: Variable) -> Action
    ensures { (run : Statement) → statement_of run result ≡ assign (place_in p) (c_var (place_in q)) }
{
    Action::Assign(p, Expression::Var(q))
}

/// Appends a statement.
pub(crate) fn statement(
    alloc: Global,
    out: &mut List<u8>,
    file: &NodeFile,
    s: &Action,
) -> Result<(), Memory>
    ensures { OnOk result (out.new ≡ out.old ++ statement_text (spelling file.now) indent (statement_of nothing s.now)) }
{
    let decls: &[Decl] = &file.part.decls;
    let names: &[Name] = &file.names;
    action(alloc, out, decls, decls, names, b"    ", s)
}

fn literal(v: Value) -> Expression
    ensures { tree_of result ≡ of_value v }
{
    match v {
        Value::Int(n) => Expression::Number(n),
        Value::Bool(b) => Expression::Truth(b),
    }
}

// The value at a place of an inbox before others.
fn value_before(alloc: Global, j: u32, k: u32, v: Value, rest: Action) -> Result<Action, Memory>
    ensures { IfOk result (λ s. (run : Statement) → statement_of run s ≡ both (assign (payload j k) (of_value v)) (statement_of run rest)) }
{
    let value = Action::Assign(Variable::Payload(j, k), literal(v));
    then(alloc, value, rest)
}

/// The inbox for the data of a node gets these values.
pub(crate) fn filling(alloc: Global, j: u32, values: &[Carried]) -> Result<Action, Memory>
    requires few { length values.now < 2 ^ 32 }
    ensures { IfOk result (λ s. (run : Statement) → statement_of run s ≡ filling j 0 (first_values values.now)) }
{
    let mut all = Action::Nothing;
    'places: for i in 0..values.len() {
        let k = values.len() - 1 - i;
        all = value_before(alloc, j, k as u32, values[k].first, all)?;
    }
    Ok(all)
}

/// So many values of the message at hand are put into the inbox of a node.
pub(crate) fn taking(alloc: Global, j: u32, count: u32) -> Result<Action, Memory>
    ensures { IfOk result (λ s. (run : Statement) → statement_of run s ≡ taking j count) }
{
    let mut all = Action::Nothing;
    'places: for k in 0..count {
        all = then(
            alloc,
            all,
            copied(Variable::Payload(j, k), Variable::Message(k)),
        )?;
    }
    Ok(all)
}
