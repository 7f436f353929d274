// The lines of text of a picture.
ghost use Rattle.std.specs.Prelude.{◌≡◌, ◌++◌, decimal, IfOk, OnOk};
ghost use Rattle.lt_arch.specs.declared.pace.Pace.TheVariants as paces;
ghost use Rattle.lt_svg.specs.Paths.{base_name};
ghost use Rattle.lt_drawing.specs.Titles.{alone_text, common_note_text, common_row_text, delivered_text, events_text, execution_text, messages_of_text, nodes_text, note_text, numbered_row, protocol_text, reach_text, ring_text, refused_row_text, ticks_text, title_text};

use lt_arch::{Offence, Pace, Protocol, Shape};
use lt_audit::Miss;
use lt_base::{List, Memory, append_number};
use lt_course::RefusedEvent;
use lt_lossy::LossyOffence;
use lt_svg::{base_name, fill};
use lt_tape::Window;
use lt_text_lines::{append_channel, append_node_name};
use std::alloc::Global;

// Appends the name of a file without the folders before it.
fn append_base(out: &mut List<u8>, name: &[u8]) -> Result<(), Memory>
    ensures { OnOk result (out.new ≡ out.old ++ base_name name.now) }
{
    out.extend(base_name(name))
}

/// The names of the schedule and of the setup.
pub(crate) fn title_text(alloc: Global, schedule: &[u8], config: &[u8]) -> Result<List<u8>, Memory>
    ensures { IfOk result (λ text. text ≡ title_text schedule.now config.now) }
{
    let mut out = List::new(alloc);
    append_base(&mut out, schedule)?;
    out.extend(b" by ")?;
    append_base(&mut out, config)?;
    Ok(out)
}

fn plain_protocol(protocol: Protocol) -> &'static str
    ensures { result.now ≡ protocol_text paces.Plain protocol }
{
    match protocol {
        Protocol::BackPressure => "backpressure",
        Protocol::TimeBased => "timebased",
    }
}

// The protocol, as a setup calls it.
fn protocol_text(pace: Pace, protocol: Protocol) -> &'static str
    ensures { result.now ≡ protocol_text pace protocol }
{
    match pace {
        Pace::Plain => plain_protocol(protocol),
        Pace::Lossy(_) => "lossy",
        Pace::Leader(_) => "leader",
    }
}

// Appends how many nodes there are.
fn append_nodes(out: &mut List<u8>, nodes: usize) -> Result<(), Memory>
    ensures { OnOk result (out.new ≡ out.old ++ nodes_text nodes) }
{
    if nodes == 1 {
        return out.extend(b", 1 node, ");
    }
    fill(out, b", % nodes, ", &[nodes as u64])
}

// Appends how many of all events are drawn.
fn append_events(out: &mut List<u8>, shown: usize, all: usize) -> Result<(), Memory>
    ensures { OnOk result (out.new ≡ out.old ++ events_text shown all) }
{
    if shown == all {
        return fill(out, b"% events", &[all as u64]);
    }
    fill(out, b"% of % events", &[shown as u64, all as u64])
}

fn append_reach(out: &mut List<u8>, to: u64, end: u64) -> Result<(), Memory>
    ensures { OnOk result (out.new ≡ out.old ++ reach_text to end) }
{
    if to == end {
        return Ok(());
    }
    fill(out, b" of %", &[end])
}

// Appends which ticks are drawn of a list whose last event has this time.
fn append_ticks(
    out: &mut List<u8>,
    window: Window,
    end: u64,
    refused: &Option<RefusedEvent>,
) -> Result<(), Memory>
    ensures { OnOk result (out.new ≡ out.old ++ ticks_text window end refused.now) }
{
    match refused {
        None => {
            let to = window.to.min(end);
            fill(out, b", ticks % to %", &[window.from, to])?;
            append_reach(out, to, end)
        }
        Some(_) => fill(
            out,
            b" before the offence, ticks % to %",
            &[window.from, window.to],
        ),
    }
}

// Appends that the messages of this node are drawn.
fn append_named(out: &mut List<u8>, shape: &Shape, node: u32) -> Result<(), Memory>
    ensures { OnOk result (out.new ≡ out.old ++ messages_of_text shape.now node) }
{
    out.extend(b", messages of ")?;
    append_node_name(out, shape, node)?;
    out.extend(b" alone")
}

// Appends whose messages are drawn.
fn append_alone(out: &mut List<u8>, shape: &Shape, node: Option<u32>) -> Result<(), Memory>
    ensures { OnOk result (out.new ≡ out.old ++ alone_text shape.now node) }
{
    match node {
        None => Ok(()),
        Some(node) => append_named(out, shape, node),
    }
}

/// Appends the protocol, and how many nodes there are.
pub(crate) fn append_setting(
    out: &mut List<u8>,
    pace: Pace,
    protocol: Protocol,
    nodes: usize,
) -> Result<(), Memory>
    ensures { OnOk result (out.new ≡ out.old ++ (protocol_text pace protocol ++ nodes_text nodes)) }
{
    out.extend(protocol_text(pace, protocol).as_bytes())?;
    append_nodes(out, nodes)
}

/// Appends what of the events is drawn, and whose messages.
pub(crate) fn append_extent(
    out: &mut List<u8>,
    shape: &Shape,
    node: Option<u32>,
    window: Window,
    shown: usize,
    all: usize,
    end: u64,
    refused: &Option<RefusedEvent>,
) -> Result<(), Memory>
    ensures { OnOk result (out.new ≡ out.old ++ (events_text shown all ++ (ticks_text window end refused.now ++ alone_text shape.now node))) }
{
    append_events(out, shown, all)?;
    append_ticks(out, window, end, refused)?;
    append_alone(out, shape, node)
}

// Appends which event executes.
fn append_execution(out: &mut List<u8>, shape: &Shape, miss: Miss) -> Result<(), Memory>
    ensures { OnOk result (out.new ≡ out.old ++ execution_text shape.now miss) }
{
    out.extend(b"event ")?;
    append_number(out, u64::from(miss.event))?;
    out.extend(b": ")?;
    append_node_name(out, shape, miss.node)
}

// Appends with how many messages.
fn append_delivered(out: &mut List<u8>, shape: &Shape, miss: Miss) -> Result<(), Memory>
    ensures { OnOk result (out.new ≡ out.old ++ delivered_text shape.now miss) }
{
    out.extend(b" executes ")?;
    append_number(out, u64::from(miss.instant))?;
    out.extend(b" with ")?;
    append_number(out, u64::from(miss.delivered))?;
    out.extend(b" of")?;
    append_channel(out, shape, miss.channel)
}

/// The first execution with a message too few or too many, as `audit` tells it.
pub(crate) fn ring_text(alloc: Global, shape: &Shape, miss: Miss) -> Result<List<u8>, Memory>
    ensures { IfOk result (λ text. text ≡ ring_text shape.now miss) }
{
    let mut out = List::new(alloc);
    append_execution(&mut out, shape, miss)?;
    append_delivered(&mut out, shape, miss)?;
    Ok(out)
}

// The row of an event that is refused, with its number.
fn numbered_row(alloc: Global, number: u32, row: &[u8]) -> Result<List<u8>, Memory>
    ensures { IfOk result (λ text. text ≡ numbered_row number row.now) }
{
    let mut out = List::new(alloc);
    out.extend(b"event ")?;
    append_number(&mut out, u64::from(number))?;
    out.extend(b": ")?;
    out.extend(row)?;
    Ok(out)
}

/// The row of an event with this number that is refused.
pub(crate) fn refused_row_text(
    alloc: Global,
    number: u32,
    row: &[u8],
    offence: LossyOffence,
) -> Result<List<u8>, Memory>
    ensures { IfOk result (λ text. text ≡ refused_row_text number row.now offence) }
{
    match offence {
        LossyOffence::Common(offence) => common_row_text(alloc, number, row, offence),
        LossyOffence::TooManyLost(_) => numbered_row(alloc, number, row),
    }
}

fn common_row_text(
    alloc: Global,
    number: u32,
    row: &[u8],
    offence: Offence,
) -> Result<List<u8>, Memory>
    ensures { IfOk result (λ text. text ≡ common_row_text number row.now offence) }
{
    if matches!(offence, Offence::NoEnd) {
        return List::from_slice(alloc, b"no end");
    }
    numbered_row(alloc, number, row)
}

// A few words and a tick.
fn words(alloc: Global, text: &[u8], bound: u64) -> Result<List<u8>, Memory>
    ensures { IfOk result (λ note. note ≡ text.now ++ decimal bound) }
{
    let mut out = List::from_slice(alloc, text)?;
    append_number(&mut out, bound)?;
    Ok(out)
}

/// What is wrong with an event, with the tick by which it was due, or before which it was not.
pub(crate) fn note_text(
    alloc: Global,
    bound: u64,
    offence: LossyOffence,
) -> Result<List<u8>, Memory>
    ensures { IfOk result (λ note. note ≡ note_text bound offence) }
{
    match offence {
        LossyOffence::Common(offence) => common_note_text(alloc, bound, offence),
        LossyOffence::TooManyLost(_) => List::from_slice(alloc, b"too many lost"),
    }
}

fn common_note_text(alloc: Global, bound: u64, offence: Offence) -> Result<List<u8>, Memory>
    ensures { IfOk result (λ note. note ≡ common_note_text bound offence) }
{
    match offence {
        Offence::NodeOverdue(_) => words(alloc, b"due by ", bound),
        Offence::ChannelOverdue(_) => words(alloc, b"due by ", bound),
        Offence::TooSoon(_) => words(alloc, b"not before ", bound),
        Offence::TooEarly(_) => words(alloc, b"not before ", bound),
        Offence::NothingSent(_) => List::from_slice(alloc, b"nothing sent"),
        Offence::AfterEnd => Ok(List::new(alloc)),
        Offence::Backwards => Ok(List::new(alloc)),
        Offence::NoEnd => Ok(List::new(alloc)),
    }
}
