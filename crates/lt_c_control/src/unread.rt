// What is asked of inboxes, and that they are read.

ghost use Rattle.std.specs.Prelude.{◌≡◌, IfOk};
ghost use Rattle.lt_c.specs.Tree.{Statement as Sentence};
ghost use Rattle.lt_c.specs.Views.{tree_of, statement_of};
ghost use Rattle.lt_c_control.specs.Control.{unread_ack, all_data, some_data, all_acks, if_acked, read_data, read_acks};
ghost use Rattle.lt_c_control.specs.Steps.{data_step, some_step, ack_step, read_step, seen_step};

use crate::statements::{copied, differ, either, joined, then};
use lt_base::Memory;
use lt_c::{Action, Expression, Symbol, Variable};
use std::alloc::Global;

// One more inbox for data before others.
fn data_before(alloc: Global, j: u32, rest: Expression) -> Result<Expression, Memory>
    ensures { IfOk result (λ e. tree_of e ≡ data_step j (tree_of rest)) }
{
    let first = differ(alloc, Variable::Bit(j), Variable::Read(j))?;
    joined(alloc, Symbol::And, first, rest)
}

/// Every one of these inboxes for data has a message that was not read, and what is given holds.
pub(crate) fn all_data(alloc: Global, js: &[u32], e: Expression) -> Result<Expression, Memory>
    ensures { IfOk result (λ all. tree_of all ≡ all_data js.now (tree_of e)) }
{
    let mut all = e;
    'inboxes: for i in 0..js.len() {
        let j = js[js.len() - 1 - i];
        all = data_before(alloc, j, all)?;
    }
    Ok(all)
}

fn some_before(alloc: Global, j: u32, rest: Expression) -> Result<Expression, Memory>
    ensures { IfOk result (λ e. tree_of e ≡ some_step j (tree_of rest)) }
{
    let first = differ(alloc, Variable::Bit(j), Variable::Read(j))?;
    joined(alloc, Symbol::Or, first, rest)
}

/// Some one of these inboxes has such a message, or what is given holds.
pub(crate) fn some_data(alloc: Global, js: &[u32], e: Expression) -> Result<Expression, Memory>
    ensures { IfOk result (λ some. tree_of some ≡ some_data js.now (tree_of e)) }
{
    let mut some = e;
    'inboxes: for i in 0..js.len() {
        let j = js[js.len() - 1 - i];
        some = some_before(alloc, j, some)?;
    }
    Ok(some)
}

fn unread_ack(alloc: Global, j: u32) -> Result<Expression, Memory>
    ensures { IfOk result (λ e. tree_of e ≡ unread_ack j) }
{
    differ(alloc, Variable::Ack(j), Variable::Seen(j))
}

// One more inbox for acknowledgements before others.
fn ack_before(alloc: Global, j: u32, rest: Expression) -> Result<Expression, Memory>
    ensures { IfOk result (λ e. tree_of e ≡ ack_step j (tree_of rest)) }
{
    let first = unread_ack(alloc, j)?;
    joined(alloc, Symbol::And, first, rest)
}

// Every one of these inboxes for acknowledgements has a message that was not read, and what is given holds.
fn all_acks(alloc: Global, js: &[u32], e: Expression) -> Result<Expression, Memory>
    ensures { IfOk result (λ all. tree_of all ≡ all_acks js.now (tree_of e)) }
{
    let mut all = e;
    'inboxes: for i in 0..js.len() {
        let j = js[js.len() - 1 - i];
        all = ack_before(alloc, j, all)?;
    }
    Ok(all)
}

/// A statement where all acknowledgements are there.
pub(crate) fn if_acked(alloc: Global, js: &[u32], s: Action) -> Result<Action, Memory>
    ensures { IfOk result (λ t. (run : Sentence) → statement_of run t ≡ if_acked js.now (statement_of run s)) }
{
    match js.split_first() {
        None => Ok(s),
        Some((j, rest)) => {
            let first = unread_ack(alloc, *j)?;
            let all = all_acks(alloc, rest, first)?;
            either(alloc, all, s, Action::Nothing)
        }
    }
}

fn read_before(alloc: Global, j: u32, rest: Action) -> Result<Action, Memory>
    ensures { IfOk result (λ s. (run : Sentence) → statement_of run s ≡ read_step j (statement_of run rest)) }
{
    then(alloc, copied(Variable::Read(j), Variable::Bit(j)), rest)
}

/// The data that is there is read.
pub(crate) fn read_data(alloc: Global, js: &[u32]) -> Result<Action, Memory>
    ensures { IfOk result (λ s. (run : Sentence) → statement_of run s ≡ read_data js.now) }
{
    let mut all = Action::Nothing;
    'inboxes: for i in 0..js.len() {
        let j = js[js.len() - 1 - i];
        all = read_before(alloc, j, all)?;
    }
    Ok(all)
}

fn seen_before(alloc: Global, j: u32, rest: Action) -> Result<Action, Memory>
    ensures { IfOk result (λ s. (run : Sentence) → statement_of run s ≡ seen_step j (statement_of run rest)) }
{
    then(alloc, copied(Variable::Seen(j), Variable::Ack(j)), rest)
}

/// The acknowledgements that are there are read.
pub(crate) fn read_acks(alloc: Global, js: &[u32]) -> Result<Action, Memory>
    ensures { IfOk result (λ s. (run : Sentence) → statement_of run s ≡ read_acks js.now) }
{
    let mut all = Action::Nothing;
    'inboxes: for i in 0..js.len() {
        let j = js[js.len() - 1 - i];
        all = seen_before(alloc, j, all)?;
    }
    Ok(all)
}
