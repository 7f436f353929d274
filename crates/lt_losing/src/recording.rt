// A drawn list of events, written as a schedule file.
ghost use Rattle.std.specs.Prelude.{ℕ, ◌≡◌, ◌<◌, ◌≤◌, ◌+◌, ◌*◌, ◌^◌, [], Bool, IsTrue, IfOk, OnOk, MatchOption};
ghost use Rattle.std.specs.List.{All};
ghost use Rattle.lt_io.specs.Counts.{MayFail};
ghost use Rattle.lt_io.specs.SinkState.{KeepsSink};
ghost use Rattle.lt_arch.specs.declared.limits.TheConstants.{GREATEST_TIME};
ghost use Rattle.lt_arch.specs.Readers.{node_count, chan_count};
ghost use Rattle.lt_arch.specs.Shapes.{HaveSameNodes};
ghost use Rattle.lt_lossy.specs.Events.{IsLossyEventOf};
ghost use Rattle.lt_sim.specs.Recorded.{WritesText};
ghost use Rattle.lt_losing.specs.Losing.{lossy_drawn};
ghost use Rattle.lt_losing.specs.Laws.{IsLossyShown};
ghost use Rattle.lt_losing.specs.LossyFile.{lossy_file_text};
ghost use Rattle.lt_losing.specs.LossyRecorded.{LossyRecords, IsHeldWhole, LossyDrawingStarts};

use crate::drawing::LossyDrawing;
use crate::row::put_row;
use lt_arch::{Event, Shape, Timing};
use lt_base::{List, Memory, Or};
use lt_io::Sink;
use lt_lossy::LossyEvent;
use lt_rows::MOST_EVENTS;
use lt_sim::SimFault;
use lt_sim::page::{first_page, write_out};
use std::alloc::Global;

/// Draws the list of events of a seed up to a horizon in ticks, for so many rows of inputs, over links that lose at most so many messages in a row on a
/// channel, and of a thousand that may be lost so many as the rate; writes it as a schedule file, and answers its number of events, the end included.
///
/// The list is held whole before it is written, so that nothing is written of one that has too many events.
pub fn lose<O: Sink>(
    alloc: Global,
    shape: &Shape,
    timing: &Timing,
    limit: u64,
    rate: u64,
    rows: u32,
    seed: u64,
    horizon: u64,
    sink: &mut O,
) -> Result<u64, Or<SimFault>>
    requires same { HaveSameNodes shape.now timing.now }
    requires numbered { 2 * (node_count shape.now + chan_count shape.now) < 2 ^ 32 }
    requires horizon { horizon ≤ GREATEST_TIME }
    requires count { MayFail (O.state sink.old).faults }
    ensures records { LossyRecords shape.now (lossy_drawn shape.now timing.now limit rows rate seed horizon) (O.state sink.old) (O.state sink.new) result }
    ensures shown { OnOk result (IsLossyShown shape.now timing.now limit rows horizon (lossy_drawn shape.now timing.now limit rows rate seed horizon)) }
    ensures keeps { KeepsSink (O.state sink.old) (O.state sink.new) }
    ensures sound { IsTrue (O.state sink.old).sound → (O.state sink.new).faults ≡ (O.state sink.old).faults }
{
    match draw_all(alloc, shape, timing, limit, rate, rows, seed, horizon)? {
        Some(events) => {
            write(alloc, &events, shape, sink)?;
            Ok(events.len() as u64)
        }
        None => Err(Or::Fault(SimFault::TooMany)),
    }
}

// The list, where it is within the limit on events.
fn draw_all(
    alloc: Global,
    shape: &Shape,
    timing: &Timing,
    limit: u64,
    rate: u64,
    rows: u32,
    seed: u64,
    horizon: u64,
) -> Result<Option<Vec<LossyEvent>>, Memory>
    requires same { HaveSameNodes shape.now timing.now }
    requires numbered { 2 * (node_count shape.now + chan_count shape.now) < 2 ^ 32 }
    requires horizon { horizon ≤ GREATEST_TIME }
    ensures { IfOk result (λ drawn. MatchOption drawn (IsHeldWhole (lossy_drawn shape.now timing.now limit rows rate seed horizon) [] Bool.false)
        (λ events. IsHeldWhole (lossy_drawn shape.now timing.now limit rows rate seed horizon) events.items Bool.true)) }
{
    let mut drawing = LossyDrawing::start(alloc, shape, timing, seed)?;
    let mut events = Vec::new(alloc);
    let ended = extend(
        &mut events,
        &mut drawing,
        shape,
        timing,
        limit,
        rate,
        rows,
        horizon,
    )?;
    if ended {
        return Ok(Some(events));
    }
    Ok(None)
}

// Draws the events one after another, and answers whether they ended within the limit.
fn extend(
    events: &mut Vec<LossyEvent>,
    drawing: &mut LossyDrawing,
    shape: &Shape,
    timing: &Timing,
    limit: u64,
    rate: u64,
    rows: u32,
    horizon: u64,
) -> Result<bool, Memory>
    requires empty { events.old.items ≡ [] }
    requires horizon { horizon ≤ GREATEST_TIME }
    requires starts { (seed : ℕ) × LossyDrawingStarts drawing.old shape.now timing.now seed }
    ensures { (seed : ℕ) → LossyDrawingStarts drawing.old shape.now timing.now seed
        → IfOk result (IsHeldWhole (lossy_drawn shape.now timing.now limit rows rate seed horizon) events.new.items) }
{
    for _number in 0..MOST_EVENTS {
        match drawing.next(horizon) {
            Some((at, place)) => {
                let e = drawing.take(shape, timing, limit, rate, rows, at, place)?;
                events.push(e)?;
            }
            None => {
                events.push(LossyEvent::Plain(Event::End(horizon)))?;
                return Ok(true);
            }
        }
    }
    Ok(false)
}

// Writes the header and the rows of these events.
fn write<O: Sink>(
    alloc: Global,
    events: &Vec<LossyEvent>,
    shape: &Shape,
    sink: &mut O,
) -> Result<(), Or<SimFault>>
    requires events { All (IsLossyEventOf shape.now) events.now.items }
    requires count { MayFail (O.state sink.old).faults }
    ensures written { WritesText (lossy_file_text shape.now events.now.items) (O.state sink.old) (O.state sink.new) result }
    ensures keeps { KeepsSink (O.state sink.old) (O.state sink.new) }
    ensures sound { IsTrue (O.state sink.old).sound → (O.state sink.new).faults ≡ (O.state sink.old).faults }
{
    let mut page = first_page(alloc)?;
    for e in events {
        put_row(alloc, &mut page, e, shape, sink)?;
    }
    write_out(alloc, &mut page, sink)
}
