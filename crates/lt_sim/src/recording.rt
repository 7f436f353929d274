// A drawn list of events, written as a schedule file.
ghost use Rattle.std.specs.Prelude.{ℕ, ◌≡◌, ◌<◌, ◌≤◌, ◌+◌, ◌*◌, ◌-◌, ◌^◌, ◌++◌, ◌∷◌, [], IsTrue, IfOk, OnOk, length};
ghost use Rattle.lt_io.specs.Counts.{MayFail};
ghost use Rattle.lt_arch.specs.declared.limits.TheConstants.{GREATEST_TIME};
ghost use Rattle.lt_arch.specs.Readers.{node_count, chan_count};
ghost use Rattle.lt_arch.specs.Schedule.{OnePlace};
ghost use Rattle.lt_arch.specs.Shapes.{HaveSameNodes};
ghost use Rattle.lt_io.specs.SinkState.{KeepsSink};
ghost use Rattle.lt_sim.specs.Drawn.{drawn};
ghost use Rattle.lt_rows.specs.Texts.{event_text};
ghost use Rattle.lt_arch.specs.declared.event.Event.TheVariants.{End};
ghost use Rattle.lt_sim.specs.File.{header_text, file_text};
ghost use Rattle.lt_sim.specs.Standing.{DrawingStarts, DrawsFewEvents};
ghost use Rattle.lt_sim.specs.Recorded.{Records, WritesText};
ghost use Rattle.lt_sim.specs.Laws.{IsSimShown};

use crate::SimFault;
use crate::drawing::{Drawing, event_at};
use crate::page::{first_page, put_row, write_out};
use crate::within::ends_in_time;
use lt_arch::{Event, Shape, Timing};
use lt_base::{List, Or};
use lt_io::Sink;
use lt_rows::MOST_EVENTS;
use std::alloc::Global;

/// Draws the list of events of a seed up to a horizon in ticks, for so many rows of inputs, writes it as a schedule
/// file, and answers its number of events, the end included.
///
/// Nothing is written of one that has too many events: where the periods and the rows do not bound their number, the list is drawn twice, once
/// to count it and once to write it. No more memory is taken than for the shape, whatever the horizon is.
pub fn record<O: Sink>(
    alloc: Global,
    shape: &Shape,
    timing: &Timing,
    rows: u32,
    seed: u64,
    horizon: u64,
    sink: &mut O,
) -> Result<u64, Or<SimFault>>
    requires same { HaveSameNodes shape.now timing.now }
    requires one_place { OnePlace shape.now timing.now rows }
    requires numbered { 2 * (node_count shape.now + chan_count shape.now) < 2 ^ 32 }
    requires horizon { horizon ≤ GREATEST_TIME }
    requires count { MayFail (O.state sink.old).faults }
    ensures records { Records shape.now (drawn shape.now timing.now rows seed horizon) (O.state sink.old) (O.state sink.new) result }
    ensures sim_shown { OnOk result (IsSimShown shape.now timing.now rows horizon (drawn shape.now timing.now rows seed horizon)) }
    ensures keeps { KeepsSink (O.state sink.old) (O.state sink.new) }
    ensures sound { IsTrue (O.state sink.old).sound → (O.state sink.new).faults ≡ (O.state sink.old).faults }
{
    if ends_in_time(alloc, shape, timing, rows, seed, horizon)? {
        write_events(alloc, shape, timing, rows, seed, horizon, sink)
    } else {
        Err(Or::Fault(SimFault::TooMany))
    }
}

// Writes the list, which is within the limit, and answers its number of events.
fn write_events<O: Sink>(
    alloc: Global,
    shape: &Shape,
    timing: &Timing,
    rows: u32,
    seed: u64,
    horizon: u64,
    sink: &mut O,
) -> Result<u64, Or<SimFault>>
    requires same { HaveSameNodes shape.now timing.now }
    requires one_place { OnePlace shape.now timing.now rows }
    requires numbered { 2 * (node_count shape.now + chan_count shape.now) < 2 ^ 32 }
    requires horizon { horizon ≤ GREATEST_TIME }
    requires few { length (drawn shape.now timing.now rows seed horizon) ≤ 5000000 }
    requires count { MayFail (O.state sink.old).faults }
    ensures written { WritesText (file_text shape.now (drawn shape.now timing.now rows seed horizon)) (O.state sink.old) (O.state sink.new) result }
    ensures counted { IfOk result (λ count. count ≡ length (drawn shape.now timing.now rows seed horizon)) }
    ensures keeps { KeepsSink (O.state sink.old) (O.state sink.new) }
    ensures sound { IsTrue (O.state sink.old).sound → (O.state sink.new).faults ≡ (O.state sink.old).faults }
{
    let mut page = first_page(alloc)?;
    let mut drawing = Drawing::start(alloc, shape, timing, seed)?;
    write(
        alloc,
        &mut drawing,
        &mut page,
        shape,
        timing,
        rows,
        horizon,
        sink,
    )
}

fn write<O: Sink>(
    alloc: Global,
    drawing: &mut Drawing,
    page: &mut List<u8>,
    shape: &Shape,
    timing: &Timing,
    rows: u32,
    horizon: u64,
    sink: &mut O,
) -> Result<u64, Or<SimFault>>
    requires one_place { OnePlace shape.now timing.now rows }
    requires horizon { horizon ≤ GREATEST_TIME }
    requires page { page.old ≡ header_text }
    requires starts { DrawsFewEvents drawing.old shape.now timing.now rows horizon }
    requires count { MayFail (O.state sink.old).faults }
    ensures written { (seed : ℕ) → DrawingStarts drawing.old shape.now timing.now seed
        → WritesText (file_text shape.now (drawn shape.now timing.now rows seed horizon)) (O.state sink.old) (O.state sink.new) result }
    ensures counted { (seed : ℕ) → DrawingStarts drawing.old shape.now timing.now seed → IfOk result (λ count. count ≡ length (drawn shape.now timing.now rows seed horizon)) }
    ensures keeps { KeepsSink (O.state sink.old) (O.state sink.new) }
    ensures sound { IsTrue (O.state sink.old).sound → (O.state sink.new).faults ≡ (O.state sink.old).faults }
{
    for number in 0..MOST_EVENTS {
        match drawing.next(horizon) {
            Some((at, place)) => {
                put_row(alloc, page, &event_at(shape, at, place), shape, sink)?;
                drawing.take(shape, timing, rows, at, place);
            }
            None => return write_end(alloc, page, shape, horizon, number, sink),
        }
    }
    unreachable!()
}

// Puts the end behind so many events on the page, writes it, and answers their number with the end.
fn write_end<O: Sink>(
    alloc: Global,
    page: &mut List<u8>,
    shape: &Shape,
    horizon: u64,
    number: u32,
    sink: &mut O,
) -> Result<u64, Or<SimFault>>
    requires horizon { horizon ≤ GREATEST_TIME }
    requires short { length page.old < 65280 }
    requires count { MayFail (O.state sink.old).faults }
    ensures written { WritesText (page.old ++ (event_text shape.now (End horizon) ++ 10 ∷ [])) (O.state sink.old) (O.state sink.new) result }
    ensures counted { IfOk result (λ count. count ≡ number + 1) }
    ensures keeps { KeepsSink (O.state sink.old) (O.state sink.new) }
    ensures sound { IsTrue (O.state sink.old).sound → (O.state sink.new).faults ≡ (O.state sink.old).faults }
{
    put_row(alloc, page, &Event::End(horizon), shape, sink)?;
    write_out(alloc, page, sink)?;
    Ok(number as u64 + 1)
}
