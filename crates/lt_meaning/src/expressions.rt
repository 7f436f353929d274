// How an expression is lifted.

ghost use Rattle.std.specs.Prelude.{◌≡◌, ◌∷◌, true, false, Ok, IfOk, OnOk, length, map};
ghost use Rattle.lt_base.specs.declared.value.Value.TheVariants.{Bool as Truth};
ghost use Rattle.lt_base.specs.Expression.{shape, unary, binary, imported, choose, merged, follow, arrow, call as called, arguments_of};
ghost use Rattle.lt_base.specs.Meaning.{outer as outer_pairs};
ghost use Rattle.lt_meaning.specs.Form.{node_form, at as at_cell, kept as at_delay, one, two, named, either, joined};
ghost use Rattle.lt_meaning.specs.Plan.{runs};
ghost use Rattle.lt_meaning.specs.Lift.{first_wait};
ghost use Rattle.lt_meaning.specs.Taken.{taken, taken_after, after_arguments, with_wait, with_step, with_call, right_form, form_in, forms_in};

use crate::lifter::{Lifter, Waiting};
use crate::node::Node;
use crate::plan::{Action, Step};
use lt_base::{Bin, Clock, Expr, Imp, Memory, Un, Value};
use std::alloc::Global;

/// Lifts an expression at a clock: each delay gets a number, and each call a cell and a step.
#[cycle(lifting)]
pub fn lift<'a>(to: &mut Lifter<'a>, e: &'a Expr, clock: &Clock) -> Result<Node, Memory>
    ensures form { IfOk result (λ node. node_form node ≡ form_in (taken to.old) (shape e.now)) }
    ensures grown { OnOk result (taken to.new ≡ taken_after (taken to.old) (shape e.now) clock.now) }
{
    match e {
        Expr::Lit(v) => Ok(Node::Literal(*v)),
        Expr::Var(x) => Ok(Node::Cell(*x as usize)),
        Expr::Un(o, a) => lift_unary(to, *o, a, clock),
        Expr::Bin(o, a, b) => lift_binary(to, *o, a, b, clock),
        Expr::Imported(o, a, b) => lift_imported(to, *o, a, b, clock),
        Expr::If(c, a, b) => lift_choice(to, c, a, b, clock),
        Expr::When(e, _, _) => lift_outside(to, e, clock),
        Expr::Merge(c, a, b) => lift_merge(to, *c, a, b, clock),
        Expr::Fby(v, right) => wait(to, clock, *v, Some(right)),
        Expr::Follow(a, b) => lift_follow(to, a, b, clock),
        Expr::Arrow(a, b) => lift_arrow(to, a, b, clock),
        Expr::Call(g, args) => lift_call(to, *g, args, clock),
    }
}

// Lifts an operator's operand, and the operator.
#[cycle(lifting)]
fn lift_unary<'a>(to: &mut Lifter<'a>, o: Un, a: &'a Expr, clock: &Clock) -> Result<Node, Memory>
    ensures form { IfOk result (λ node. node_form node ≡ form_in (taken to.old) (unary o (shape a.now))) }
    ensures grown { OnOk result (taken to.new ≡ taken_after (taken to.old) (unary o (shape a.now)) clock.now) }
{
    let a = lift(to, a, clock)?;
    one_of(to.alloc, o, a)
}

// Lifts an expression at the clock before the innermost pair.
#[cycle(lifting)]
fn lift_outside<'a>(to: &mut Lifter<'a>, e: &'a Expr, clock: &Clock) -> Result<Node, Memory>
    ensures form { IfOk result (λ node. node_form node ≡ form_in (taken to.old) (shape e.now)) }
    ensures grown { OnOk result (taken to.new ≡ taken_after (taken to.old) (shape e.now) (outer_pairs clock.now)) }
{
    let before = clock.outer()?;
    lift(to, e, &before)
}

// Lifts two expressions, one after the other.
#[cycle(lifting)]
fn lift_two<'a>(
    to: &mut Lifter<'a>,
    a: &'a Expr,
    b: &'a Expr,
    clock: &Clock,
) -> Result<(Node, Node), Memory>
    ensures first { IfOk result (λ nodes. node_form nodes.0 ≡ form_in (taken to.old) (shape a.now)) }
    ensures second { IfOk result (λ nodes. node_form nodes.1 ≡ form_in (taken_after (taken to.old) (shape a.now) clock.now) (shape b.now)) }
    ensures grown { OnOk result (taken to.new ≡ taken_after (taken_after (taken to.old) (shape a.now) clock.now) (shape b.now) clock.now) }
{
    let first = lift(to, a, clock)?;
    match lift(to, b, clock) {
        Ok(second) => Ok((first, second)),
        Err(memory) => {
            drop(first);
            Err(memory)
        }
    }
}

// Lifts an operator's operands, and the operator.
#[cycle(lifting)]
fn lift_binary<'a>(
    to: &mut Lifter<'a>,
    o: Bin,
    a: &'a Expr,
    b: &'a Expr,
    clock: &Clock,
) -> Result<Node, Memory>
    ensures form { IfOk result (λ node. node_form node ≡ form_in (taken to.old) (binary o (shape a.now) (shape b.now))) }
    ensures grown { OnOk result (taken to.new ≡ taken_after (taken to.old) (binary o (shape a.now) (shape b.now)) clock.now) }
{
    let (a, b) = lift_two(to, a, b, clock)?;
    two_of(to.alloc, o, a, b)
}

// Lifts an imported operator's operands, and the operator.
#[cycle(lifting)]
fn lift_imported<'a>(
    to: &mut Lifter<'a>,
    o: Imp,
    a: &'a Expr,
    b: &'a Expr,
    clock: &Clock,
) -> Result<Node, Memory>
    ensures form { IfOk result (λ node. node_form node ≡ form_in (taken to.old) (imported o (shape a.now) (shape b.now))) }
    ensures grown { OnOk result (taken to.new ≡ taken_after (taken to.old) (imported o (shape a.now) (shape b.now)) clock.now) }
{
    let (a, b) = lift_two(to, a, b, clock)?;
    named_of(to.alloc, o, a, b)
}

// Lifts a choice.
#[cycle(lifting)]
fn lift_choice<'a>(
    to: &mut Lifter<'a>,
    c: &'a Expr,
    a: &'a Expr,
    b: &'a Expr,
    clock: &Clock,
) -> Result<Node, Memory>
    ensures form { IfOk result (λ node. node_form node ≡ form_in (taken to.old) (choose (shape c.now) (shape a.now) (shape b.now))) }
    ensures grown { OnOk result (taken to.new ≡ taken_after (taken to.old) (choose (shape c.now) (shape a.now) (shape b.now)) clock.now) }
{
    let c = lift(to, c, clock)?;
    match lift_two(to, a, b, clock) {
        Ok((a, b)) => either_of(to.alloc, c, a, b),
        Err(memory) => {
            drop(c);
            Err(memory)
        }
    }
}

// Lifts a merge, each branch at its own clock.
#[cycle(lifting)]
fn lift_merge<'a>(
    to: &mut Lifter<'a>,
    c: u32,
    a: &'a Expr,
    b: &'a Expr,
    clock: &Clock,
) -> Result<Node, Memory>
    ensures form { IfOk result (λ node. node_form node ≡ form_in (taken to.old) (merged c (shape a.now) (shape b.now))) }
    ensures grown { OnOk result (taken to.new ≡ taken_after (taken to.old) (merged c (shape a.now) (shape b.now)) clock.now) }
{
    let a = lift_branch(to, c, true, a, clock)?;
    let b = lift_branch(to, c, false, b, clock)?;
    joined_of(to.alloc, c, a, b)
}

// Lifts a branch of a merge at its clock, where the variable has that truth value.
#[cycle(lifting)]
fn lift_branch<'a>(
    to: &mut Lifter<'a>,
    c: u32,
    polarity: bool,
    e: &'a Expr,
    clock: &Clock,
) -> Result<Node, Memory>
    ensures form { IfOk result (λ node. node_form node ≡ form_in (taken to.old) (shape e.now)) }
    ensures grown { OnOk result (taken to.new ≡ taken_after (taken to.old) (shape e.now) ((c, polarity) ∷ clock.now)) }
{
    let at = clock.inner(c, polarity)?;
    lift(to, e, &at)
}

// Lifts a delay that begins with what its left side has at the first instant.
#[cycle(lifting)]
fn lift_follow<'a>(
    to: &mut Lifter<'a>,
    a: &'a Expr,
    b: &'a Expr,
    clock: &Clock,
) -> Result<Node, Memory>
    ensures form { IfOk result (λ node. node_form node ≡ form_in (taken to.old) (follow (shape a.now) (shape b.now))) }
    ensures grown { OnOk result (taken to.new ≡ taken_after (taken to.old) (follow (shape a.now) (shape b.now)) clock.now) }
{
    let a = lift(to, a, clock)?;
    match wait_twice(to, b, clock) {
        Ok((begins, kept)) => either_of(to.alloc, begins, a, kept),
        Err(memory) => {
            drop(a);
            Err(memory)
        }
    }
}

// Lifts both sides of `->`.
#[cycle(lifting)]
fn lift_arrow<'a>(
    to: &mut Lifter<'a>,
    a: &'a Expr,
    b: &'a Expr,
    clock: &Clock,
) -> Result<Node, Memory>
    ensures form { IfOk result (λ node. node_form node ≡ form_in (taken to.old) (arrow (shape a.now) (shape b.now))) }
    ensures grown { OnOk result (taken to.new ≡ taken_after (taken to.old) (arrow (shape a.now) (shape b.now)) clock.now) }
{
    let (a, b) = lift_two(to, a, b, clock)?;
    match wait(to, clock, Value::Bool(true), None) {
        Ok(begins) => either_of(to.alloc, begins, a, b),
        Err(memory) => {
            drop(a);
            drop(b);
            Err(memory)
        }
    }
}

// Lifts the arguments of a call, and the call.
#[cycle(lifting)]
fn lift_call<'a>(
    to: &mut Lifter<'a>,
    g: u32,
    args: &'a Vec<Expr>,
    clock: &Clock,
) -> Result<Node, Memory>
    ensures form { IfOk result (λ node. node_form node ≡ form_in (taken to.old) (called g (arguments_of (map shape args.now.items)))) }
    ensures grown { OnOk result (taken to.new ≡ taken_after (taken to.old) (called g (arguments_of (map shape args.now.items))) clock.now) }
{
    let lifted = lift_all(to, args, clock)?;
    call(to, clock, g as usize, lifted)
}

// Lifts the arguments of a call.
#[cycle(lifting)]
fn lift_all<'a>(
    to: &mut Lifter<'a>,
    args: &'a Vec<Expr>,
    clock: &Clock,
) -> Result<Vec<Node>, Memory>
    ensures forms { IfOk result (λ nodes. map node_form nodes.items ≡ forms_in (taken to.old) (arguments_of (map shape args.now.items))) }
    ensures grown { OnOk result (taken to.new ≡ after_arguments (taken to.old) (arguments_of (map shape args.now.items)) clock.now) }
{
    let mut nodes = Vec::with_capacity(to.alloc, args.len())?;
    for a in args {
        nodes.push(lift(to, a, clock)?)?;
    }
    Ok(nodes)
}

// A delay that waits.
fn wait<'a>(
    to: &mut Lifter<'a>,
    clock: &Clock,
    first: Value,
    right: Option<&'a Expr>,
) -> Result<Node, Memory>
    ensures form { IfOk result (λ node. node_form node ≡ at_delay (length (taken to.old).waits)) }
    ensures grown { OnOk result (taken to.new ≡ with_wait (taken to.old) (record { clock = clock.now; first = first; right = right_form right.entry })) }
{
    let number = to.waiting.len();
    let clock = clock.copy()?;
    to.waiting.push(Waiting {
        clock,
        first,
        right,
    })?;
    Ok(Node::Kept(number))
}

// The flag of the first instant, and a delay that waits.
fn wait_twice<'a>(
    to: &mut Lifter<'a>,
    right: &'a Expr,
    clock: &Clock,
) -> Result<(Node, Node), Memory>
    ensures flag { IfOk result (λ nodes. node_form nodes.0 ≡ at_delay (length (taken to.old).waits)) }
    ensures delay { IfOk result (λ nodes. node_form nodes.1 ≡ at_delay (length (with_wait (taken to.old) (first_wait clock.now)).waits)) }
    ensures grown { OnOk result (taken to.new ≡ with_wait (with_wait (taken to.old) (first_wait clock.now))
        (record { clock = clock.now; first = Truth true; right = shape right.now })) }
{
    let begins = wait(to, clock, Value::Bool(true), None)?;
    match wait(to, clock, Value::Bool(true), Some(right)) {
        Ok(kept) => Ok((begins, kept)),
        Err(memory) => {
            drop(begins);
            Err(memory)
        }
    }
}

// The cell of the next call: no call has it yet.
fn next_cell(to: &Lifter<'_>) -> usize
    ensures { result ≡ (taken to.now).cells }
{
    to.cells.len()
}

// The step of a call.
fn push_call(
    to: &mut Lifter<'_>,
    cell: usize,
    clock: &Clock,
    function: usize,
    args: Vec<Node>,
) -> Result<(), Memory>
    ensures { OnOk result (taken to.new ≡ with_step (taken to.old)
        (record { cell = cell; clock = clock.now; action = runs function (map node_form args.items) })) }
{
    let copied = clock.copy();
    match copied {
        Ok(clock) => {
            to.steps.push(Step {
                cell,
                clock,
                action: Action::Run(function, args),
            })?;
            Ok(())
        }
        Err(memory) => {
            drop(args);
            Err(memory)
        }
    }
}

// A call with a cell and a step of its own, and so with a state of its own: no two calls share one.
fn call(
    to: &mut Lifter<'_>,
    clock: &Clock,
    function: usize,
    args: Vec<Node>,
) -> Result<Node, Memory>
    ensures form { IfOk result (λ node. node_form node ≡ at_cell (taken to.old).cells) }
    ensures grown { OnOk result (taken to.new ≡ with_call (taken to.old)
        (record { cell = (taken to.old).cells; clock = clock.now; action = runs function (map node_form args.items) })) }
{
    let cell = next_cell(to);
    push_call(to, cell, clock, function, args)?;
    to.cells.push(None)?;
    Ok(Node::Cell(cell))
}

// A node in a box of its own.
fn box_node(alloc: Global, node: Node) -> Result<Box<Node>, Memory>
    ensures { IfOk result (λ made. made.value ≡ node) }
{
    Ok(Box::new(alloc, node)?)
}

// Two boxes, where both were made.
fn both(
    a: Result<Box<Node>, Memory>,
    b: Result<Box<Node>, Memory>,
) -> Result<(Box<Node>, Box<Node>), Memory>
    ensures { IfOk result (λ boxes. (a ≡ Ok boxes.0) × (b ≡ Ok boxes.1)) }
{
    let first = a?;
    Ok((first, b?))
}

fn one_of(alloc: Global, o: Un, a: Node) -> Result<Node, Memory>
    ensures { IfOk result (λ node. node_form node ≡ one o (node_form a)) }
{
    Ok(Node::Unary(o, box_node(alloc, a)?))
}

fn two_of(alloc: Global, o: Bin, a: Node, b: Node) -> Result<Node, Memory>
    ensures { IfOk result (λ node. node_form node ≡ two o (node_form a) (node_form b)) }
{
    let (a, b) = both(box_node(alloc, a), box_node(alloc, b))?;
    Ok(Node::Binary(o, a, b))
}

fn named_of(alloc: Global, o: Imp, a: Node, b: Node) -> Result<Node, Memory>
    ensures { IfOk result (λ node. node_form node ≡ named o (node_form a) (node_form b)) }
{
    let (a, b) = both(box_node(alloc, a), box_node(alloc, b))?;
    Ok(Node::Imported(o, a, b))
}

fn either_of(alloc: Global, c: Node, a: Node, b: Node) -> Result<Node, Memory>
    ensures { IfOk result (λ node. node_form node ≡ either (node_form c) (node_form a) (node_form b)) }
{
    let c = box_node(alloc, c);
    let (a, b) = both(box_node(alloc, a), box_node(alloc, b))?;
    Ok(Node::Choose(c?, a, b))
}

fn joined_of(alloc: Global, c: u32, a: Node, b: Node) -> Result<Node, Memory>
    ensures { IfOk result (λ node. node_form node ≡ joined c (node_form a) (node_form b)) }
{
    let (a, b) = both(box_node(alloc, a), box_node(alloc, b))?;
    Ok(Node::Merge(c as usize, a, b))
}
