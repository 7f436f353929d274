// The statements of controllers.

ghost use Rattle.std.specs.Prelude.{◌≡◌, ◌<◌, ◌^◌, [], IfOk};
ghost use Rattle.lt_c.specs.Tree.{Statement as Sentence, assign, branch, both, nothing, perform, more, left, phase, c_integer, c_var};
ghost use Rattle.lt_c.specs.Views.{place_in, statement_of};
ghost use Rattle.lt_c_control.specs.Control.{all_data, some_data, if_acked, is_number, becomes, executing, sending, pressure, counted_down, counting};

use crate::statements::{becomes, either, is_number, then, turned};
use crate::unread::{all_data, if_acked, read_acks, read_data, some_data};
use lt_base::Memory;
use lt_c::{Action, Expression, Function, Variable};
use std::alloc::Global;

// The step is run, and the data that it used is read.
fn executing(alloc: Global, ins: &[u32]) -> Result<Action, Memory>
    ensures { IfOk result (λ s. (run : Sentence) → statement_of run s ≡ executing ins.now (perform run)) }
{
    let turn = turned(alloc, Variable::Executed)?;
    let last = then(alloc, turn, becomes(Variable::Did, 1))?;
    let marked = then(alloc, becomes(Variable::Phase, 1), last)?;
    let read = read_data(alloc, ins)?;
    let after = then(alloc, read, marked)?;
    then(alloc, Action::Run, after)
}

// The acknowledgements are read, and the phase changes.
fn sending(alloc: Global, acks: &[u32], phase: i64) -> Result<Action, Memory>
    ensures { IfOk result (λ s. (run : Sentence) → statement_of run s ≡ sending acks.now (assign (place_in Variable.Phase) (c_integer phase))) }
{
    let turn = turned(alloc, Variable::Sent)?;
    let last = then(alloc, turn, becomes(Variable::Did, 2))?;
    let marked = then(alloc, becomes(Variable::Phase, phase), last)?;
    let read = read_acks(alloc, acks)?;
    then(alloc, read, marked)
}

// A node that waits executes, where all data and an instant's inputs are there.
fn waiting(alloc: Global, ins: &[u32]) -> Result<Action, Memory>
    ensures { IfOk result (λ s. (run : Sentence) → statement_of run s ≡ branch (all_data ins.now (c_var more)) (executing ins.now (perform run)) nothing) }
{
    let may = all_data(alloc, ins, Expression::Var(Variable::More))?;
    let execute = executing(alloc, ins)?;
    either(alloc, may, execute, Action::Nothing)
}

// A node that has executed sends, where all acknowledgements are there.
fn ready(alloc: Global, acks: &[u32]) -> Result<Action, Memory>
    ensures { IfOk result (λ s. (run : Sentence) → statement_of run s ≡ if_acked acks.now (sending acks.now (becomes phase 0))) }
{
    let send = sending(alloc, acks, 0)?;
    if_acked(alloc, acks, send)
}

/// An activation under back-pressure, of a node with data from some nodes and acknowledgements of some, which are given by their numbers.
///
/// # Errors
///
/// When memory is short.
pub fn pressure(alloc: Global, ins: &[u32], acks: &[u32]) -> Result<Action, Memory>
    ensures { IfOk result (λ s. (run : Sentence) → statement_of run s ≡ pressure ins.now acks.now (perform run)) }
{
    let ready = ready(alloc, acks)?;
    let wait = waiting(alloc, ins)?;
    let is_ready = is_number(alloc, Variable::Phase, 1)?;
    let act = either(alloc, is_ready, ready, wait)?;
    then(alloc, becomes(Variable::Did, 0), act)
}

// One less to count.
fn counted_down(alloc: Global) -> Result<Action, Memory>
    ensures { IfOk result (λ s. (run : Sentence) → statement_of run s ≡ counted_down) }
{
    let left = Box::new(alloc, Expression::Var(Variable::Left))?;
    let one = Box::new(alloc, Expression::Number(1))?;
    Ok(Action::Assign(Variable::Left, Expression::Call(Function::Sub, left, one)))
}

// An instant is executed, where its inputs are at hand, and then it counts until it sends.
fn started(alloc: Global, ins: &[u32], send: i64) -> Result<Action, Memory>
    ensures { IfOk result (λ s. (run : Sentence) → statement_of run s ≡ branch (c_var more) (both (executing ins.now (perform run)) (assign left (c_integer send))) nothing) }
{
    let execute = executing(alloc, ins)?;
    let counts = then(alloc, execute, becomes(Variable::Left, send))?;
    either(
        alloc,
        Expression::Var(Variable::More),
        counts,
        Action::Nothing,
    )
}

// It sends, or counts down until it does.
fn to_send(alloc: Global, ins: &[u32], execute: i64) -> Result<Action, Memory>
    ensures { IfOk result (λ s. (run : Sentence) → statement_of run s
        ≡ branch (some_data ins.now (is_number left 1)) (both (sending [] (becomes phase 2)) (assign left (c_integer execute))) counted_down) }
{
    let is_last = is_number(alloc, Variable::Left, 1)?;
    let may = some_data(alloc, ins, is_last)?;
    let send = sending(alloc, &[], 2)?;
    let counts = then(alloc, send, becomes(Variable::Left, execute))?;
    let down = counted_down(alloc)?;
    either(alloc, may, counts, down)
}

// It executes, or counts down until it does.
fn to_execute(alloc: Global, ins: &[u32], send: i64) -> Result<Action, Memory>
    ensures { IfOk result (λ s. (run : Sentence) → statement_of run s
        ≡ branch (is_number left 1) (branch (c_var more) (both (executing ins.now (perform run)) (assign left (c_integer send))) nothing) counted_down) }
{
    let is_last = is_number(alloc, Variable::Left, 1)?;
    let start = started(alloc, ins, send)?;
    let down = counted_down(alloc)?;
    either(alloc, is_last, start, down)
}

/// An activation under the time-based protocol, of a node with data from some nodes, which counts so many activations from an execution to
/// its send, and from a send to the next execution.
///
/// # Errors
///
/// When memory is short.
pub fn counting(alloc: Global, ins: &[u32], send: u64, execute: u64) -> Result<Action, Memory>
    requires send { send < 2 ^ 63 }
    requires execute { execute < 2 ^ 63 }
    ensures { IfOk result (λ s. (run : Sentence) → statement_of run s ≡ counting send execute ins.now (perform run)) }
{
    let first = started(alloc, ins, send as i64)?;
    let sends = to_send(alloc, ins, execute as i64)?;
    let executes = to_execute(alloc, ins, send as i64)?;
    let is_sending = is_number(alloc, Variable::Phase, 1)?;
    let later = either(alloc, is_sending, sends, executes)?;
    let is_first = is_number(alloc, Variable::Phase, 0)?;
    let act = either(alloc, is_first, first, later)?;
    then(alloc, becomes(Variable::Did, 0), act)
}
