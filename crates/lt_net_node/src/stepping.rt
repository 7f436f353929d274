// What a part is fed with at an instant, and the step of its machine.
ghost use Rattle.std.specs.Prelude.{◌≡◌, ◌<◌, ◌≤◌, ◌+◌, ℕ, Some, length, map, take, slice_get};
ghost use Rattle.lt_place.specs.declared.layout.Feed.{Feed as OfFeed};
ghost use Rattle.lt_net_node.specs.Fed.{fed_by, CanFeed};
ghost use Rattle.lt_net_node.specs.Steps.{MachineSteps};

use crate::route::Route;
use lt_base::{Cell, Steps, Value};
use lt_link::Inbox;
use lt_machine::Machine;
use lt_place::{Feed, Part};
use std::sync::ledger::Ledger;

fn fed_by(feed: Feed, routes: &[Route], inboxes: &[Inbox], row: &[Value]) -> Value
    requires { CanFeed routes.now inboxes.now row.now feed }
    ensures { result ≡ fed_by routes.now inboxes.now row.now feed }
{
    match feed {
        Feed::Input(input) => row[input as usize],
        Feed::Cross(crossing) => {
            let route = routes[crossing as usize];
            inboxes[route.channel].payload()[route.place]
        }
    }
}

/// Puts the values of a part's inputs in front.
pub fn feed(
    feeds: &[Feed],
    routes: &[Route],
    inboxes: &[Inbox],
    row: &[Value],
    values: &mut Vec<Value>,
)
    requires room { length feeds.now ≤ length values.old.items }
    requires there { (x : ℕ) (d : OfFeed) → slice_get feeds.now x ≡ Some d → CanFeed routes.now inboxes.now row.now d }
    ensures fed { take (length feeds.now) values.new.items ≡ map (fed_by routes.now inboxes.now row.now) feeds.now }
    ensures room { length values.new.items ≡ length values.old.items }
{
    for x in 0..feeds.len() {
        values[x] = fed_by(feeds[x], routes, inboxes, row);
    }
}

// One step of a machine on these values.
fn step_on<M: Machine, L: Ledger>(
    machine: &mut M,
    values: &[Value],
    outs: &mut [Cell],
    steps: &mut Steps<L>,
)
    requires left { 0 < M.left machine.old }
    requires wide { M.inputs machine.old ≡ length values.now }
    requires long { M.outputs machine.old ≡ length outs.old }
    ensures steps { MachineSteps M.Machine machine.old machine.new values.now outs.new }
    ensures size { M.size machine.new ≡ M.size machine.old }
    ensures cost { steps.new ≤ steps.old + M.size machine.old }
{
    machine.step(values, outs, steps);
}

/// One step of a machine on what its part is fed with.
pub fn run<M: Machine, L: Ledger>(
    part: &Part,
    routes: &[Route],
    inboxes: &[Inbox],
    row: &[Value],
    machine: &mut M,
    values: &mut Vec<Value>,
    outs: &mut [Cell],
    steps: &mut Steps<L>,
)
    requires room { length part.now.feeds ≤ length values.old.items }
    requires there { (x : ℕ) (d : OfFeed) → slice_get part.now.feeds x ≡ Some d → CanFeed routes.now inboxes.now row.now d }
    requires left { 0 < M.left machine.old }
    requires wide { M.inputs machine.old ≡ length part.now.feeds }
    requires long { M.outputs machine.old ≡ length outs.old }
    ensures steps { MachineSteps M.Machine machine.old machine.new (map (fed_by routes.now inboxes.now row.now) part.now.feeds) outs.new }
    ensures room { length values.new.items ≡ length values.old.items }
    ensures size { M.size machine.new ≡ M.size machine.old }
    ensures cost { steps.new ≤ steps.old + M.size machine.old }
{
    feed(&part.feeds, routes, inboxes, row, values);
    step_on(machine, &values[..part.feeds.len()], outs, steps);
}
