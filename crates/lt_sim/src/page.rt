// The part of a file that is not written yet.
ghost use Rattle.std.specs.Prelude.{ℕ, ◌≡◌, ◌<◌, ◌-◌, ◌++◌, ◌∷◌, [], IsTrue, IfOk, OnOk, length};
ghost use Rattle.lt_io.specs.Counts.{MayFail};
ghost use Rattle.lt_arch.specs.Schedule.{IsEventOf};
ghost use Rattle.lt_rows.specs.Texts.{event_text};
ghost use Rattle.lt_io.specs.SinkState.{KeepsSink};
ghost use Rattle.lt_sim.specs.File.{header_text};
ghost use Rattle.lt_sim.specs.Recorded.{WritesText, WritesPart};

use crate::SimFault;
use lt_arch::{Event, Shape};
use lt_base::{List, Memory, Or};
use lt_io::{Sink, SinkErr, write_all};
use lt_rows::extend_event;
use std::alloc::Global;
use std::mem;

// How many bytes a page has room for, and from how many on it is written: a row is shorter than what is between.
const ROOM: usize = 65_536;

const FULL: usize = 65_280;

/// A page with the header.
pub fn first_page(alloc: Global) -> Result<List<u8>, Memory>
    ensures { IfOk result (λ page. page ≡ header_text) }
{
    let mut page = List::of(Vec::with_capacity(alloc, ROOM)?);
    page.extend(b"time,event,place\n")?;
    Ok(page)
}

/// Writes the page, and keeps its room.
pub fn write_out<O: Sink>(
    alloc: Global,
    page: &mut List<u8>,
    sink: &mut O,
) -> Result<(), Or<SimFault>>
    requires { MayFail (O.state sink.old).faults }
    ensures written { WritesText page.old (O.state sink.old) (O.state sink.new) result }
    ensures empty { OnOk result (page.new ≡ []) }
    ensures keeps { KeepsSink (O.state sink.old) (O.state sink.new) }
    ensures sound { IsTrue (O.state sink.old).sound → (O.state sink.new).faults ≡ (O.state sink.old).faults }
{
    match write_all(sink, page) {
        Ok(()) => {
            clear(alloc, page);
            Ok(())
        }
        Err(SinkErr::Failed) => Err(Or::Fault(SimFault::Write)),
        Err(SinkErr::Memory) => Err(Or::Memory),
    }
}

// Takes all bytes off the page, and keeps its room.
fn clear(alloc: Global, page: &mut List<u8>)
    ensures { page.new ≡ [] }
{
    let full = mem::replace(page, List::new(alloc));
    let mut bytes = full.into_vec();
    bytes.clear();
    *page = List::of(bytes);
}

/// Writes the page where it is full, behind a row that was appended.
pub fn write_full<O: Sink>(
    alloc: Global,
    page: &mut List<u8>,
    sink: &mut O,
) -> Result<(), Or<SimFault>>
    requires { MayFail (O.state sink.old).faults }
    ensures written { (kept row : List ℕ) → page.old ≡ kept ++ row → WritesPart row kept page.new (O.state sink.old) (O.state sink.new) result }
    ensures short { OnOk result (length page.new < 65280) }
    ensures keeps { KeepsSink (O.state sink.old) (O.state sink.new) }
    ensures sound { IsTrue (O.state sink.old).sound → (O.state sink.new).faults ≡ (O.state sink.old).faults }
{
    if page.len() < FULL {
        return Ok(());
    }
    write_out(alloc, page, sink)
}

/// Puts an event's row on the page, and writes the page where it is full.
pub(crate) fn put_row<O: Sink>(
    alloc: Global,
    page: &mut List<u8>,
    e: &Event,
    shape: &Shape,
    sink: &mut O,
) -> Result<(), Or<SimFault>>
    requires event { IsEventOf shape.now e.now }
    requires short { length page.old < 65280 }
    requires count { MayFail (O.state sink.old).faults }
    ensures written { WritesPart (event_text shape.now e.now ++ 10 ∷ []) page.old page.new (O.state sink.old) (O.state sink.new) result }
    ensures short { OnOk result (length page.new < 65280) }
    ensures keeps { KeepsSink (O.state sink.old) (O.state sink.new) }
    ensures sound { IsTrue (O.state sink.old).sound → (O.state sink.new).faults ≡ (O.state sink.old).faults }
{
    extend_event(page, e, shape)?;
    write_full(alloc, page, sink)
}
