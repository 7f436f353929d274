// A function on its way through the instants.

ghost use Rattle.std.specs.Prelude.{◌≡◌, ◌≢◌, ◌<◌, ◌≤◌, ℕ, true, false, Some, length, map, take, slice_get};
ghost use Rattle.lt_base.specs.Meaning.{entry, present};
ghost use Rattle.lt_meaning.specs.declared.plan.Delay.{Delay as DelayAt};
ghost use Rattle.lt_meaning.specs.Form.{node_form, value_in};
ghost use Rattle.lt_meaning.specs.Plan.{action_form, next_kept};
ghost use Rattle.lt_meaning.specs.Stands.{StandsSomewhere, StateAdvances, StepCanAct, StepActs, CanAnswer, CallAnswers, CanRun, CallRuns};

use crate::node::{Node, at, is_present};
use crate::plan::{Action, Delay, Plan, Step};
use lt_base::Slot;
use std::mem::swap;

/// Where a call has come: its cells, what its delays keep, and the calls within it.
#[derive(Drop)]
pub struct State {
    pub cells: Vec<Slot>,
    pub kept: Vec<Slot>,
    /// What the delays keep next.
    pub next: Vec<Slot>,
    /// For each step that is a call, where that call has come.
    pub children: Vec<Option<Box<State>>>,
}

/// One instant of the function of this number, whose inputs are in its first cells.
#[cycle(run)]
pub fn run(plans: &[Plan], g: usize, state: &mut State)
    requires { StandsSomewhere plans.now g state.old }
    ensures { StateAdvances plans.now g state.old state.new }
{
    let plan = &plans[g];
    for i in 0..plan.steps.len() {
        take(
            plans,
            &plan.steps[i],
            &state.kept,
            &mut state.cells,
            &mut state.children[i],
        );
    }
    advance(&plan.delays, &state.cells, &state.kept, &mut state.next);
    swap(&mut state.kept, &mut state.next);
}

// What a delay keeps next: its right side's value where its clock is present, and else what it kept.
#[inline(always)]
fn newest(delay: &Delay, j: usize, cells: &[Slot], kept: &[Slot]) -> Slot
    ensures { result ≡ next_kept (entry cells.now) (entry kept.now) delay.now j }
{
    if is_present(&delay.clock, cells) {
        delay.right.value(cells, kept)
    } else {
        at(kept, j)
    }
}

// What the delays keep next.
fn advance(delays: &[Delay], cells: &[Slot], kept: &[Slot], next: &mut Vec<Slot>)
    requires kept { length kept.now ≡ length delays.now }
    requires next { length next.old.items ≡ length delays.now }
    ensures size { length next.new.items ≡ length next.old.items }
    ensures next { (j : ℕ) (d : DelayAt) → slice_get delays.now j ≡ Some d
        → entry next.new.items j ≡ next_kept (entry cells.now) (entry kept.now) d j }
{
    for (j, delay) in delays.iter().enumerate() {
        next[j] = newest(delay, j, cells, kept);
    }
}

// One step.
#[cycle(run)]
fn take(
    plans: &[Plan],
    step: &Step,
    kept: &[Slot],
    cells: &mut Vec<Slot>,
    child: &mut Option<Box<State>>,
)
    requires cell { step.now.cell < length cells.old.items }
    requires child { StepCanAct plans.now (action_form step.now.action) child.old }
    ensures size { length cells.new.items ≡ length cells.old.items }
    ensures others { (s : ℕ) → s ≢ step.now.cell → entry cells.new.items s ≡ entry cells.old.items s }
    ensures absent { present (entry cells.old.items) step.now.clock ≡ false → (cells.new.items ≡ cells.old.items) × (child.new ≡ child.old) }
    ensures acts { present (entry cells.old.items) step.now.clock ≡ true
        → StepActs plans.now (action_form step.now.action) (entry cells.old.items) (entry kept.now) child.old child.new (entry cells.new.items step.now.cell) }
{
    if !is_present(&step.clock, cells) {
        return;
    }
    let value = action(plans, &step.action, cells, kept, child);
    cells[step.cell] = value;
}

// What a step gives its cell.
#[cycle(run)]
fn action(
    plans: &[Plan],
    action: &Action,
    cells: &[Slot],
    kept: &[Slot],
    child: &mut Option<Box<State>>,
) -> Slot
    requires { StepCanAct plans.now (action_form action.now) child.old }
    ensures { StepActs plans.now (action_form action.now) (entry cells.now) (entry kept.now) child.old child.new result }
{
    match action {
        Action::Set(node) => node.value(cells, kept),
        Action::Run(function, args) => call_value(plans, *function, args, cells, kept, child),
    }
}

// A call at an instant.
#[cycle(run)]
fn call_value(
    plans: &[Plan],
    function: usize,
    args: &Vec<Node>,
    cells: &[Slot],
    kept: &[Slot],
    child: &mut Option<Box<State>>,
) -> Slot
    requires { CanAnswer plans.now function (length args.now.items) child.old }
    ensures { CallAnswers plans.now function (map (value_in (entry cells.now) (entry kept.now)) (map node_form args.now.items)) child.old child.new result }
{
    match child {
        None => unreachable!(),
        Some(state) => answer(plans, function, args, cells, kept, state),
    }
}

#[cycle(run)]
fn answer(
    plans: &[Plan],
    function: usize,
    args: &Vec<Node>,
    cells: &[Slot],
    kept: &[Slot],
    state: &mut State,
) -> Slot
    requires { CanRun plans.now function (length args.now.items) state.old }
    ensures { CallRuns plans.now function (map (value_in (entry cells.now) (entry kept.now)) (map node_form args.now.items)) state.old state.new result }
{
    let plan = &plans[function];
    fill(args, cells, kept, &mut state.cells);
    run(plans, function, state);
    state.cells[plan.output]
}

// Puts the arguments' values into the first cells.
fn fill(args: &Vec<Node>, cells: &[Slot], kept: &[Slot], to: &mut Vec<Slot>)
    requires { length args.now.items ≤ length to.old.items }
    ensures size { length to.new.items ≡ length to.old.items }
    ensures filled { take (length args.now.items) to.new.items ≡ map (value_in (entry cells.now) (entry kept.now)) (map node_form args.now.items) }
{
    for i in 0..args.len() {
        to[i] = args[i].value(cells, kept);
    }
}
