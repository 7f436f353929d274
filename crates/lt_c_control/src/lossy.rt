// The statements of a controller whose links lose messages.

ghost use Rattle.std.specs.Prelude.{◌≡◌, IfOk};
ghost use Rattle.lt_c.specs.Tree.{Statement as Sentence, branch, nothing, perform, more, c_var, c_join, o_le};
ghost use Rattle.lt_c.specs.Views.{place_in, tree_of, statement_of};
ghost use Rattle.lt_c_control.specs.Lossy.{all_new, all_answers, if_answered, counted_up, posting, executing_once, sending_next, losing};
ghost use Rattle.lt_c_control.specs.Steps.{new_step, answer_step, post_step};

use crate::posts::Post;
use crate::statements::{becomes, copied, either, is_number, joined, then};
use lt_base::Memory;
use lt_c::{Action, Expression, Function, Symbol, Variable};
use std::alloc::Global;

// The count of instants is at most a number that came.
fn at_most(alloc: Global, p: Variable) -> Result<Expression, Memory>
    ensures { IfOk result (λ e. tree_of e ≡ c_join o_le (c_var (place_in Variable.Executions)) (c_var (place_in p))) }
{
    joined(
        alloc,
        Symbol::Le,
        Expression::Var(Variable::Executions),
        Expression::Var(p),
    )
}

// One more inbox for data before others.
fn new_before(alloc: Global, j: u32, rest: Expression) -> Result<Expression, Memory>
    ensures { IfOk result (λ e. tree_of e ≡ new_step j (tree_of rest)) }
{
    let first = at_most(alloc, Variable::Newest(j))?;
    joined(alloc, Symbol::And, first, rest)
}

fn all_new(alloc: Global, js: &[u32], e: Expression) -> Result<Expression, Memory>
    ensures { IfOk result (λ all. tree_of all ≡ all_new js.now (tree_of e)) }
{
    let mut all = e;
    'inboxes: for i in 0..js.len() {
        let j = js[js.len() - 1 - i];
        all = new_before(alloc, j, all)?;
    }
    Ok(all)
}

// One more inbox for acknowledgements before others.
fn answer_before(alloc: Global, j: u32, rest: Expression) -> Result<Expression, Memory>
    ensures { IfOk result (λ e. tree_of e ≡ answer_step j (tree_of rest)) }
{
    let first = at_most(alloc, Variable::Answered(j))?;
    joined(alloc, Symbol::And, first, rest)
}

fn all_answers(alloc: Global, js: &[u32], e: Expression) -> Result<Expression, Memory>
    ensures { IfOk result (λ all. tree_of all ≡ all_answers js.now (tree_of e)) }
{
    let mut all = e;
    'inboxes: for i in 0..js.len() {
        let j = js[js.len() - 1 - i];
        all = answer_before(alloc, j, all)?;
    }
    Ok(all)
}

// A statement where all acknowledgements are there.
fn if_answered(alloc: Global, js: &[u32], s: Action) -> Result<Action, Memory>
    ensures { IfOk result (λ t. (run : Sentence) → statement_of run t ≡ if_answered js.now (statement_of run s)) }
{
    match js.split_first() {
        None => Ok(s),
        Some((j, rest)) => {
            let first = at_most(alloc, Variable::Answered(*j))?;
            let all = all_answers(alloc, rest, first)?;
            either(alloc, all, s, Action::Nothing)
        }
    }
}

// One more is counted.
fn counted_up(alloc: Global, p: Variable) -> Result<Action, Memory>
    ensures { IfOk result (λ s. (run : Sentence) → statement_of run s ≡ counted_up (place_in p)) }
{
    let count = Box::new(alloc, Expression::Var(p))?;
    let one = Box::new(alloc, Expression::Number(1))?;
    Ok(Action::Assign(p, Expression::Call(Function::Add, count, one)))
}

// One more value is kept before others.
fn post_before(alloc: Global, post: Post, rest: Action) -> Result<Action, Memory>
    ensures { IfOk result (λ s. (run : Sentence) → statement_of run s ≡ post_step post (statement_of run rest)) }
{
    let kept = Variable::Posted(post.to_node, post.at_place);
    then(alloc, copied(kept, Variable::Slot(post.from_slot)), rest)
}

fn posting(alloc: Global, posts: &[Post]) -> Result<Action, Memory>
    ensures { IfOk result (λ s. (run : Sentence) → statement_of run s ≡ posting posts.now) }
{
    let mut all = Action::Nothing;
    'posts: for i in 0..posts.len() {
        let post = posts[posts.len() - 1 - i];
        all = post_before(alloc, post, all)?;
    }
    Ok(all)
}

// The step is run, and counted.
fn executing(alloc: Global) -> Result<Action, Memory>
    ensures { IfOk result (λ s. (run : Sentence) → statement_of run s ≡ executing_once (perform run)) }
{
    let count = counted_up(alloc, Variable::Executions)?;
    let last = then(alloc, count, becomes(Variable::Did, 1))?;
    let marked = then(alloc, becomes(Variable::Phase, 1), last)?;
    then(alloc, Action::Run, marked)
}

// The next message is kept, and counted.
fn sending(alloc: Global, posts: &[Post]) -> Result<Action, Memory>
    ensures { IfOk result (λ s. (run : Sentence) → statement_of run s ≡ sending_next posts.now) }
{
    let count = counted_up(alloc, Variable::Sendings)?;
    let last = then(alloc, count, becomes(Variable::Did, 2))?;
    let marked = then(alloc, becomes(Variable::Phase, 0), last)?;
    let kept = posting(alloc, posts)?;
    then(alloc, kept, marked)
}

// A node that has executed sends, where all acknowledgements are there.
fn ready(alloc: Global, acks: &[u32], posts: &[Post]) -> Result<Action, Memory>
    ensures { IfOk result (λ s. (run : Sentence) → statement_of run s ≡ if_answered acks.now (sending_next posts.now)) }
{
    let send = sending(alloc, posts)?;
    if_answered(alloc, acks, send)
}

// A node that waits executes, where all data and an instant's inputs are there.
fn waiting(alloc: Global, ins: &[u32]) -> Result<Action, Memory>
    ensures { IfOk result (λ s. (run : Sentence) → statement_of run s ≡ branch (all_new ins.now (c_var more)) (executing_once (perform run)) nothing) }
{
    let may = all_new(alloc, ins, Expression::Var(Variable::More))?;
    let execute = executing(alloc)?;
    either(alloc, may, execute, Action::Nothing)
}

/// An activation where links lose messages, of a node with data from some nodes and acknowledgements of some, which posts these values.
/// The node is to send its last message and its last acknowledgement after each activation.
pub fn losing(alloc: Global, ins: &[u32], acks: &[u32], posts: &[Post]) -> Result<Action, Memory>
    ensures { IfOk result (λ s. (run : Sentence) → statement_of run s ≡ losing ins.now acks.now posts.now (perform run)) }
{
    let ready = ready(alloc, acks, posts)?;
    let wait = waiting(alloc, ins)?;
    let is_ready = is_number(alloc, Variable::Phase, 1)?;
    let act = either(alloc, is_ready, ready, wait)?;
    then(alloc, becomes(Variable::Did, 0), act)
}
