// The rows of events, as they are written.
ghost use Rattle.std.specs.Prelude.{◌≡◌, ◌<◌, ◌-◌, ◌++◌, ◌∷◌, [], IsTrue, OnOk, length};
ghost use Rattle.lt_io.specs.Counts.{MayFail};
ghost use Rattle.lt_io.specs.SinkState.{KeepsSink};
ghost use Rattle.lt_arch.specs.Readers.{chan_count, chan_of};
ghost use Rattle.lt_lossy.specs.Events.{IsLossyEventOf};
ghost use Rattle.lt_rows.specs.Events.{node_name, ends_text};
ghost use Rattle.lt_sim.specs.Recorded.{WritesPart};
ghost use Rattle.lt_losing.specs.LossyFile.{loss_kind_text, lossy_event_text};
ghost use Rattle.lt_lossy.specs.declared.event.LossyEvent.TheVariants.{Lose};

use lt_arch::{Chan, ChanKind, Shape};
use lt_base::{List, Memory, Or, append_number};
use lt_io::Sink;
use lt_lossy::LossyEvent;
use lt_rows::extend_event;
use lt_sim::SimFault;
use lt_sim::page::write_full;
use std::alloc::Global;

/// Puts an event's row on the page, and writes the page where it is full.
pub fn put_row<O: Sink>(
    alloc: Global,
    page: &mut List<u8>,
    e: &LossyEvent,
    shape: &Shape,
    sink: &mut O,
) -> Result<(), Or<SimFault>>
    requires event { IsLossyEventOf shape.now e.now }
    requires short { length page.old < 65280 }
    requires count { MayFail (O.state sink.old).faults }
    ensures written { WritesPart (lossy_event_text shape.now e.now ++ 10 ∷ []) page.old page.new (O.state sink.old) (O.state sink.new) result }
    ensures short { OnOk result (length page.new < 65280) }
    ensures keeps { KeepsSink (O.state sink.old) (O.state sink.new) }
    ensures sound { IsTrue (O.state sink.old).sound → (O.state sink.new).faults ≡ (O.state sink.old).faults }
{
    extend_lossy_event(page, e, shape)?;
    write_full(alloc, page, sink)
}

/// Appends the event's row with its line feed. An error leaves a part of it appended.
pub fn extend_lossy_event(rows: &mut List<u8>, e: &LossyEvent, shape: &Shape) -> Result<(), Memory>
    requires { IsLossyEventOf shape.now e.now }
    ensures { OnOk result (rows.new ≡ rows.old ++ (lossy_event_text shape.now e.now ++ 10 ∷ [])) }
{
    match e {
        LossyEvent::Plain(e) => extend_event(rows, e, shape),
        LossyEvent::Lose(ch, time) => extend_loss(rows, *ch, *time, shape),
    }
}

fn extend_loss(rows: &mut List<u8>, ch: u32, time: u64, shape: &Shape) -> Result<(), Memory>
    requires { ch < chan_count shape.now }
    ensures { OnOk result (rows.new ≡ rows.old ++ (lossy_event_text shape.now (Lose ch time) ++ 10 ∷ [])) }
{
    let chan = chan_at(shape, ch);
    append_number(rows, time)?;
    extend_kind(rows, chan.kind)?;
    extend_ends(rows, chan, shape)?;
    rows.extend(b"\n")
}

// A kind of losses between commas.
fn extend_kind(row: &mut List<u8>, kind: ChanKind) -> Result<(), Memory>
    ensures { OnOk result (row.new ≡ row.old ++ (44 ∷ loss_kind_text kind ++ 44 ∷ [])) }
{
    match kind {
        ChanKind::Data => row.extend(b",losedata,"),
        ChanKind::Ack => row.extend(b",loseack,"),
    }
}

fn extend_ends(row: &mut List<u8>, chan: Chan, shape: &Shape) -> Result<(), Memory>
    ensures { OnOk result (row.new ≡ row.old ++ ends_text shape.now chan) }
{
    row.extend(name_of(shape, chan.from))?;
    row.extend(b">")?;
    row.extend(name_of(shape, chan.to))
}

// The name of a node, and an empty one where there is no such node.
fn name_of(shape: &Shape, node: u32) -> &[u8]
    ensures { result.now ≡ node_name shape.now node }
{
    match shape.nodes.get(node as usize) {
        Some(name) => name.as_str().as_bytes(),
        None => b"",
    }
}

#[tactic(auto, unfolding(lt_arch::specs::Readers::chan_of))]
fn chan_at(shape: &Shape, ch: u32) -> Chan
    requires { ch < chan_count shape.now }
    ensures { result ≡ chan_of shape.now ch }
{
    shape.channels[ch as usize]
}
