// The statements of inboxes: what they begin with, and that what comes is put into them.

ghost use Rattle.std.specs.Prelude.{◌≡◌, ◌<◌, ◌^◌, IfOk, length};
ghost use Rattle.lt_c.specs.Tree.{Statement as Sentence, payload, assign, both};
ghost use Rattle.lt_c.specs.Literals.{of_value};
ghost use Rattle.lt_c.specs.Views.{tree_of, statement_of};
ghost use Rattle.lt_c_control.specs.Inboxes.{taking, delivering, acknowledging, filling, starting_inbox, starting_ack, starting_left, starting_phase};

use crate::statements::{becomes, copied, then};
use lt_base::{Memory, Value};
use lt_c::{Action, Expression, Variable};
use std::alloc::Global;

fn literal(v: Value) -> Expression
    ensures { tree_of result ≡ of_value v }
{
    match v {
        Value::Int(n) => Expression::Number(n),
        Value::Bool(b) => Expression::Truth(b),
    }
}

// So many values of the message at hand are put into the inbox of a node.
fn taking(alloc: Global, j: u32, count: u32) -> Result<Action, Memory>
    ensures { IfOk result (λ s. (run : Sentence) → statement_of run s ≡ taking j count) }
{
    let mut all = Action::Nothing;
    'places: for k in 0..count {
        all = then(
            alloc,
            all,
            copied(Variable::Payload(j, k), Variable::Message(k)),
        )?;
    }
    Ok(all)
}

/// A message of so many values, which is at hand, is put into the inbox for the data of a node.
///
/// # Errors
///
/// When memory is short: so it is with all builders of this crate.
pub fn delivering(alloc: Global, j: u32, count: u32) -> Result<Action, Memory>
    ensures { IfOk result (λ s. (run : Sentence) → statement_of run s ≡ delivering j count) }
{
    let values = taking(alloc, j, count)?;
    then(
        alloc,
        copied(Variable::Bit(j), Variable::MessageBit),
        values,
    )
}

/// An acknowledgement, which is at hand, is put into the inbox for those of a node.
pub fn acknowledging(j: u32) -> Action
    ensures { (run : Sentence) → statement_of run result ≡ acknowledging j }
{
    copied(Variable::Ack(j), Variable::AnswerBit)
}

// The value at a place of an inbox before others.
fn value_before(alloc: Global, j: u32, k: u32, v: Value, rest: Action) -> Result<Action, Memory>
    ensures { IfOk result (λ s. (run : Sentence) → statement_of run s ≡ both (assign (payload j k) (of_value v)) (statement_of run rest)) }
{
    then(
        alloc,
        Action::Assign(Variable::Payload(j, k), literal(v)),
        rest,
    )
}

fn filling(alloc: Global, j: u32, vs: &[Value]) -> Result<Action, Memory>
    requires few { length vs.now < 2 ^ 32 }
    ensures { IfOk result (λ s. (run : Sentence) → statement_of run s ≡ filling j 0 vs.now) }
{
    let mut all = Action::Nothing;
    'places: for i in 0..vs.len() {
        let k = vs.len() - 1 - i;
        all = value_before(alloc, j, k as u32, vs[k], all)?;
    }
    Ok(all)
}

/// The inbox for the data of a node begins with these values, as a message that was not read.
pub fn starting_inbox(alloc: Global, j: u32, firsts: &[Value]) -> Result<Action, Memory>
    requires few { length firsts.now < 2 ^ 32 }
    ensures { IfOk result (λ s. (run : Sentence) → statement_of run s ≡ starting_inbox (record { from_node = j; firsts = firsts.now })) }
{
    let values = filling(alloc, j, firsts)?;
    let read = Action::Assign(Variable::Read(j), Expression::Truth(true));
    let marked = then(alloc, read, values)?;
    let bit = Action::Assign(Variable::Bit(j), Expression::Truth(false));
    then(alloc, bit, marked)
}

/// The inbox for the acknowledgements of a node begins with one that was read.
pub fn starting_ack(alloc: Global, j: u32) -> Result<Action, Memory>
    ensures { IfOk result (λ s. (run : Sentence) → statement_of run s ≡ starting_ack j) }
{
    let bit = Action::Assign(Variable::Ack(j), Expression::Truth(false));
    let seen = Action::Assign(Variable::Seen(j), Expression::Truth(false));
    then(alloc, bit, seen)
}

fn starting_left(counts: bool) -> Action
    ensures { (run : Sentence) → statement_of run result ≡ starting_left counts }
{
    if counts {
        return becomes(Variable::Left, 0);
    }
    Action::Nothing
}

/// The controller begins with its first phase, and with the bits before the first messages. One that counts has a countdown.
pub fn starting_phase(alloc: Global, counts: bool) -> Result<Action, Memory>
    ensures { IfOk result (λ s. (run : Sentence) → statement_of run s ≡ starting_phase counts) }
{
    let sent = Action::Assign(Variable::Sent, Expression::Truth(false));
    let executed = Action::Assign(Variable::Executed, Expression::Truth(false));
    let bits = then(alloc, sent, executed)?;
    let phase = then(alloc, becomes(Variable::Phase, 0), bits)?;
    then(alloc, starting_left(counts), phase)
}
