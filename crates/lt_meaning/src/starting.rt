// Functions before the first instant.

ghost use Rattle.std.specs.Prelude.{◌≡◌, ◌<◌, ◌-◌, None, Some, IfOk, length, map};
ghost use Rattle.lt_meaning.specs.Plan.{action_form};
ghost use Rattle.lt_meaning.specs.Stands.{CanStart, StateStarts, CanStartChild, ChildStarts};

use crate::plan::{Action, Delay, Plan};
use crate::state::State;
use lt_base::{Memory, Slot};
use std::alloc::Global;

/// The function of this number before the first instant. Fewer than `left` calls nest in it.
#[cycle(start)]
pub fn start(alloc: Global, plans: &[Plan], g: usize, left: usize) -> Result<State, Memory>
    requires { CanStart plans.now g left }
    ensures { IfOk result (StateStarts plans.now g left) }
{
    let plan = &plans[g];
    let cells = absent(alloc, plan.cells)?;
    let kept = firsts(alloc, &plan.delays)?;
    let next = absent(alloc, plan.delays.len())?;
    let mut children = Vec::with_capacity(alloc, plan.steps.len())?;
    for i in 0..plan.steps.len() {
        children.push(child_of(alloc, plans, &plan.steps[i].action, left - 1)?)?;
    }
    Ok(State {
        cells,
        kept,
        next,
        children,
    })
}

// The call of a step, if it is one.
#[cycle(start)]
fn child_of(
    alloc: Global,
    plans: &[Plan],
    action: &Action,
    left: usize,
) -> Result<Option<Box<State>>, Memory>
    requires { CanStartChild plans.now (action_form action.now) left }
    ensures { IfOk result (ChildStarts plans.now (action_form action.now) left) }
{
    match action {
        Action::Set(_) => Ok(None),
        Action::Run(function, _) => {
            let state = start(alloc, plans, *function, left)?;
            Ok(Some(Box::new(alloc, state)?))
        }
    }
}

// So many absences.
fn absent(alloc: Global, number: usize) -> Result<Vec<Slot>, Memory>
    ensures { IfOk result (λ r. length r.items ≡ number) }
{
    let mut cells = Vec::with_capacity(alloc, number)?;
    for _cell in 0..number {
        cells.push(Slot::empty())?;
    }
    Ok(cells)
}

// What the delays begin with.
fn firsts(alloc: Global, delays: &Vec<Delay>) -> Result<Vec<Slot>, Memory>
    ensures { IfOk result (λ r. r.items ≡ map (λ d. Some d.first) delays.now.items) }
{
    let mut kept = Vec::with_capacity(alloc, delays.len())?;
    for delay in delays {
        kept.push(Slot::full(delay.first))?;
    }
    Ok(kept)
}
