// Whether a drawn list is short enough.
ghost use Rattle.std.specs.Prelude.{ℕ, ◌≡◌, ◌<◌, ◌≤◌, ◌+◌, ◌*◌, ◌/◌, ◌^◌, IsTrue, IfOk, length};
ghost use Rattle.lt_arch.specs.declared.limits.TheConstants.{GREATEST_TIME as greatest};
ghost use Rattle.lt_arch.specs.Readers.{node_count, chan_count, tmin_of};
ghost use Rattle.lt_arch.specs.Schedule.{OnePlace};
ghost use Rattle.lt_arch.specs.Shapes.{HaveSameNodes};
ghost use Rattle.lt_rows.specs.Limits.{most_events};
ghost use Rattle.lt_sim.specs.Drawn.{drawn};
ghost use Rattle.lt_sim.specs.Recorded.{IsWithinMost};
ghost use Rattle.lt_sim.specs.Standing.{DrawingStarts};

use crate::drawing::Drawing;
use lt_arch::{GREATEST_TIME, Shape, Timing};
use lt_base::Memory;
use lt_rows::MOST_EVENTS;
use lt_spaced::laws::events_are_few;
use std::alloc::Global;

/// Whether the list of events of a seed up to a horizon has no more events than a schedule may have.
///
/// Where the periods and the rows already bound their number, nothing is drawn for it.
pub fn ends_in_time(
    alloc: Global,
    shape: &Shape,
    timing: &Timing,
    rows: u32,
    seed: u64,
    horizon: u64,
) -> Result<bool, Memory>
    requires same { HaveSameNodes shape.now timing.now }
    requires one_place { OnePlace shape.now timing.now rows }
    requires numbered { 2 * (node_count shape.now + chan_count shape.now) < 2 ^ 32 }
    requires horizon { horizon ≤ greatest }
    ensures { IfOk result (IsWithinMost (length (drawn shape.now timing.now rows seed horizon))) }
{
    if is_bounded(shape, timing, rows, horizon) {
        return Ok(true);
    }
    let mut drawing = Drawing::start(alloc, shape, timing, seed)?;
    Ok(reaches_end(&mut drawing, shape, timing, rows, horizon))
}

// Whether no list of so many rows up to the horizon has too many events.
fn is_bounded(shape: &Shape, timing: &Timing, rows: u32, horizon: u64) -> bool
    requires same { HaveSameNodes shape.now timing.now }
    requires one_place { OnePlace shape.now timing.now rows }
    requires numbered { 2 * (node_count shape.now + chan_count shape.now) < 2 ^ 32 }
    requires horizon { horizon ≤ greatest }
    ensures { IsTrue result → (seed : ℕ) → length (drawn shape.now timing.now rows seed horizon) ≤ most_events }
{
    events_are_few();
    let nodes = shape.nodes.len() as u32;
    let channels = shape.channels.len() as u32;
    most_of(nodes, channels, horizon / least_period(timing), rows) <= MOST_EVENTS as u128
}

// How many events there are at most, where no node is activated more often than so many times behind its first one.
fn most_of(nodes: u32, channels: u32, turns: u64, rows: u32) -> u128
    ensures { result ≡ nodes * (turns + 1) + channels * (rows + 1) + 1 }
{
    nodes as u128 * (turns as u128 + 1) + channels as u128 * (rows as u128 + 1) + 1
}

// The least of the least periods.
fn least_period(timing: &Timing) -> u64
    ensures some { 0 < result }
    ensures least { (n : ℕ) → n < length timing.now.nodes → result ≤ tmin_of timing.now n }
{
    let mut least = GREATEST_TIME;
    for node in 0..timing.node_count() {
        least = least.min(timing.tmin_of(node));
    }
    least
}

// Whether a list that is being drawn comes to its end before it has too many events.
fn reaches_end(
    drawing: &mut Drawing,
    shape: &Shape,
    timing: &Timing,
    rows: u32,
    horizon: u64,
) -> bool
    requires one_place { OnePlace shape.now timing.now rows }
    requires horizon { horizon ≤ greatest }
    requires starts { (seed : ℕ) × DrawingStarts drawing.old shape.now timing.now seed }
    ensures { (seed : ℕ) → DrawingStarts drawing.old shape.now timing.now seed → IsWithinMost (length (drawn shape.now timing.now rows seed horizon)) result }
{
    for _number in 0..MOST_EVENTS {
        match drawing.next(horizon) {
            Some((at, place)) => drawing.take(shape, timing, rows, at, place),
            None => return true,
        }
    }
    false
}
