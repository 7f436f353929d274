// The plan of a function.

ghost use Rattle.std.specs.Prelude.{◌≡◌, ℕ, ◌<◌, ◌++◌, ◌∷◌, [], List as Items, Some, IfOk, OnOk, length, map, slice_get};
ghost use Rattle.lt_base.specs.Program.{Function};
ghost use Rattle.lt_base.specs.Meaning.{clock_of};
ghost use Rattle.lt_base.specs.Dependence.{Causal};
ghost use Rattle.lt_meaning.specs.Form.{node_form};
ghost use Rattle.lt_meaning.specs.Plan.{sets, delay_form};
ghost use Rattle.lt_meaning.specs.Lift.{Wait};
ghost use Rattle.lt_meaning.specs.Taken.{taken, taken_after, with_step, right_form, form_in, delay_in, step_in};
ghost use Rattle.lt_meaning.specs.Fine.{FunctionPasses};
ghost use Rattle.lt_meaning.specs.Planned.{PlanOf};
ghost use Rattle.lt_meaning.specs.Streams.{NumbersFit};

use crate::expressions::lift;
use crate::lifter::Lifter;
use crate::node::Node;
use crate::plan::{Action, Delay, Plan, Step};
use lt_base::{Clock, Decl, Equation, Expr, Func, List, Memory, Value};
use lt_cause::order_of;
use std::alloc::Global;

/// The plan of a function. Its steps are those of the equations, in their order, each after the calls in it, and then
/// the calls in right sides of delays.
pub fn plan_of(alloc: Global, f: &Func) -> Result<Plan, Memory>
    requires causal { Causal f.now }
    requires numbers { NumbersFit f.now }
    ensures { (fs : Items Function) (height : ℕ → ℕ) (top : ℕ) → FunctionPasses fs height top f.now → IfOk result (λ plan. PlanOf fs height top f.now plan) }
{
    f.invariant_holds();
    let order = order_of(alloc, f)?;
    let mut to = start(alloc, f)?;
    for k in order.eqs.iter() {
        set(&mut to, &f.decls, &f.eqs[*k as usize])?;
    }
    drop(order);
    let mut delays = Vec::new(alloc);
    while delays.len() < to.waiting.len() {
        push_delay(&mut to, &mut delays)?;
    }
    Ok(finish_plan(f, to, delays))
}

// The cells of the variables.
fn start<'a>(alloc: Global, f: &Func) -> Result<Lifter<'a>, Memory>
    ensures { IfOk result (λ to. taken to ≡ record { cells = length f.now.decls; steps = []; waits = [] }) }
{
    let mut cells = Vec::with_capacity(alloc, f.variables())?;
    for _variable in 0..f.variables() {
        cells.push(None)?;
    }
    Ok(Lifter {
        alloc,
        cells,
        steps: Vec::new(alloc),
        waiting: Vec::new(alloc),
    })
}

// The step of an equation, after those of the calls in it.
fn set<'a>(to: &mut Lifter<'a>, decls: &List<Decl>, equation: &'a Equation) -> Result<(), Memory>
    requires { equation.now.0 < length decls.now }
    ensures { OnOk result (taken to.new ≡ with_step (taken_after (taken to.old) equation.now.1 (clock_of decls.now equation.now.0))
        (step_in (taken to.old) decls.now equation.now)) }
{
    let clock = &decls[equation.left() as usize].clock;
    let node = lift(to, equation.right(), clock)?;
    push_step(to, equation.left() as usize, clock, node)
}

fn push_step(to: &mut Lifter<'_>, cell: usize, clock: &Clock, node: Node) -> Result<(), Memory>
    ensures { OnOk result (taken to.new ≡ with_step (taken to.old) (record { cell = cell; clock = clock.now; action = sets (node_form node) })) }
{
    let clock = clock.copy()?;
    to.steps.push(Step {
        cell,
        clock,
        action: Action::Set(node),
    })?;
    Ok(())
}

// The delay of this number, whose right side is lifted now.
fn next_delay(to: &mut Lifter<'_>, number: usize) -> Result<Delay, Memory>
    requires { number < length (taken to.old).waits }
    ensures delay { (w : Wait) → slice_get (taken to.old).waits number ≡ Some w
        → IfOk result (λ d. delay_form d ≡ delay_in (taken to.old) w) }
    ensures grown { (w : Wait) → slice_get (taken to.old).waits number ≡ Some w
        → OnOk result (taken to.new ≡ taken_after (taken to.old) w.right w.clock) }
{
    let waiting = &to.waiting[number];
    let first = waiting.first;
    let right = waiting.right;
    let clock = waiting.clock.copy()?;
    let right = lift_right(to, right, &clock)?;
    Ok(Delay {
        clock,
        first,
        right,
    })
}

// Appends the next delay.
fn push_delay(to: &mut Lifter<'_>, delays: &mut Vec<Delay>) -> Result<(), Memory>
    requires { length delays.old.items < length (taken to.old).waits }
    ensures delay { (w : Wait) → slice_get (taken to.old).waits (length delays.old.items) ≡ Some w
        → OnOk result (map delay_form delays.new.items ≡ map delay_form delays.old.items ++ delay_in (taken to.old) w ∷ []) }
    ensures grown { (w : Wait) → slice_get (taken to.old).waits (length delays.old.items) ≡ Some w
        → OnOk result (taken to.new ≡ taken_after (taken to.old) w.right w.clock) }
{
    let delay = next_delay(to, delays.len())?;
    delays.push(delay)?;
    Ok(())
}

fn lift_right<'a>(
    to: &mut Lifter<'a>,
    right: Option<&'a Expr>,
    clock: &Clock,
) -> Result<Node, Memory>
    ensures form { IfOk result (λ node. node_form node ≡ form_in (taken to.old) (right_form right.entry)) }
    ensures grown { OnOk result (taken to.new ≡ taken_after (taken to.old) (right_form right.entry) clock.now) }
{
    match right {
        Some(e) => lift(to, e, clock),
        None => Ok(Node::Literal(Value::Bool(false))),
    }
}

// The plan with these delays and with the steps so far.
fn finish_plan(f: &Func, to: Lifter<'_>, delays: Vec<Delay>) -> Plan
    ensures inputs { result.inputs ≡ f.now.n_in }
    ensures cells { result.cells ≡ length to.entry.cells.items }
    ensures output { (y : ℕ) (ys : Items ℕ) → f.now.outs ≡ y ∷ ys → result.output ≡ y }
    ensures steps { result.steps.items ≡ to.entry.steps.items }
    ensures delays { result.delays.items ≡ delays.items }
{
    let inputs = f.n_in as usize;
    let output = first_output(f);
    let cells = to.cells.len();
    let steps = steps_of(to);
    Plan {
        inputs,
        cells,
        output,
        steps,
        delays,
    }
}

// The steps so far.
fn steps_of(to: Lifter<'_>) -> Vec<Step>
    ensures { result.items ≡ to.entry.steps.items }
{
    let Lifter {
        alloc: _alloc,
        cells,
        steps,
        waiting,
    } = to;
    drop(cells);
    drop(waiting);
    steps
}

// The cell of the first output, if there is one.
fn first_output(f: &Func) -> usize
    ensures { (y : ℕ) (ys : Items ℕ) → f.now.outs ≡ y ∷ ys → result ≡ y }
{
    match f.outs.first() {
        Some(y) => *y as usize,
        None => 0,
    }
}
