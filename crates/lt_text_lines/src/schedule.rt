// The line of a refused schedule.
ghost use Rattle.std.specs.Prelude.{◌≡◌, ◌++◌, codes, OnOk};
ghost use Rattle.std.specs.Fmt.{decimal};
ghost use Rattle.lt_lossy.specs.declared.event.LossyOffence.TheVariants.{TooManyLost};
ghost use Rattle.lt_text_lines.specs.ScheduleLines.{row_kind_text, row_line, offence_name, offence_place_text, offence_line, lossy_line, spaced_node_text, name_of_node, channel_text, spaced_ends_text};

use crate::located::append_located;
use lt_arch::{Chan, ChanKind, Offence, Shape};
use lt_base::{List, Memory, append_number};
use lt_lossy::LossyOffence;
use lt_rows::RowFault;

/// Appends the line of a row that is no event, or of too many, without a line feed.
pub fn append_row(line: &mut List<u8>, row: u32, fault: RowFault) -> Result<(), Memory>
    ensures { OnOk result (line.new ≡ line.old ++ row_line row fault) }
{
    if matches!(fault, RowFault::TooMany) {
        return line.extend(b"limit: events 5000000");
    }
    let kind = row_kind(fault);
    append_located(line, b"schedule ", kind, b" at row ", row as usize)
}

// A kind's number and name.
fn row_kind(fault: RowFault) -> &'static str
    ensures { result.now ≡ row_kind_text fault }
{
    match fault {
        RowFault::Header => "1 Header",
        RowFault::Time => "2 Time",
        RowFault::Kind => "3 Kind",
        RowFault::UnknownPlace => "4 UnknownPlace",
        RowFault::NotCsv => "5 NotCsv",
        RowFault::TooMany => "6 TooMany",
    }
}

/// Appends the line of an offence under this shape, without a line feed.
pub fn append_offence(
    line: &mut List<u8>,
    shape: &Shape,
    event: u32,
    offence: Offence,
) -> Result<(), Memory>
    ensures { OnOk result (line.new ≡ line.old ++ offence_line shape.now event offence) }
{
    append_event(line, event)?;
    append_named(line, shape, offence)
}

/// The same where links lose messages.
pub fn append_lossy(
    line: &mut List<u8>,
    shape: &Shape,
    event: u32,
    offence: LossyOffence,
) -> Result<(), Memory>
    ensures { OnOk result (line.new ≡ line.old ++ lossy_line shape.now event offence) }
{
    match offence {
        LossyOffence::Common(offence) => append_offence(line, shape, event, offence),
        LossyOffence::TooManyLost(channel) => append_too_many(line, shape, event, channel),
    }
}

// Appends the line of one loss too many.
fn append_too_many(
    line: &mut List<u8>,
    shape: &Shape,
    event: u32,
    channel: u32,
) -> Result<(), Memory>
    ensures { OnOk result (line.new ≡ line.old ++ lossy_line shape.now event (TooManyLost channel)) }
{
    append_event(line, event)?;
    line.extend(b"TooManyLost")?;
    append_channel(line, shape, channel)
}

// Appends the number of a refused event.
fn append_event(line: &mut List<u8>, event: u32) -> Result<(), Memory>
    ensures { OnOk result (line.new ≡ line.old ++ codes "schedule offence at event " ++ decimal event ++ codes ": ") }
{
    line.extend(b"schedule offence at event ")?;
    append_number(line, event)?;
    line.extend(b": ")
}

fn offence_name(offence: Offence) -> &'static str
    ensures { result.now ≡ offence_name offence }
{
    match offence {
        Offence::AfterEnd => "AfterEnd",
        Offence::Backwards => "Backwards",
        Offence::NodeOverdue(_) => "NodeOverdue",
        Offence::ChannelOverdue(_) => "ChannelOverdue",
        Offence::TooSoon(_) => "TooSoon",
        Offence::NothingSent(_) => "NothingSent",
        Offence::TooEarly(_) => "TooEarly",
        Offence::NoEnd => "NoEnd",
    }
}

// Appends the offence's name, and its node or channel, if it has one.
fn append_named(line: &mut List<u8>, shape: &Shape, offence: Offence) -> Result<(), Memory>
    ensures { OnOk result (line.new ≡ line.old ++ offence_name offence ++ offence_place_text shape.now offence) }
{
    line.extend(offence_name(offence).as_bytes())?;
    append_place(line, shape, offence)
}

// Appends a space and the offence's node or channel, if it has one.
fn append_place(line: &mut List<u8>, shape: &Shape, offence: Offence) -> Result<(), Memory>
    ensures { OnOk result (line.new ≡ line.old ++ offence_place_text shape.now offence) }
{
    match offence {
        Offence::AfterEnd => Ok(()),
        Offence::Backwards => Ok(()),
        Offence::NodeOverdue(node) => append_node(line, shape, node),
        Offence::ChannelOverdue(channel) => append_channel(line, shape, channel),
        Offence::TooSoon(node) => append_node(line, shape, node),
        Offence::NothingSent(channel) => append_channel(line, shape, channel),
        Offence::TooEarly(channel) => append_channel(line, shape, channel),
        Offence::NoEnd => Ok(()),
    }
}

// Appends a space and a node's name.
fn append_node(line: &mut List<u8>, shape: &Shape, node: u32) -> Result<(), Memory>
    ensures { OnOk result (line.new ≡ line.old ++ spaced_node_text shape.now node) }
{
    line.extend(b" ")?;
    append_node_name(line, shape, node)
}

/// Appends a node's name.
pub fn append_node_name(line: &mut List<u8>, shape: &Shape, node: u32) -> Result<(), Memory>
    ensures { OnOk result (line.new ≡ line.old ++ name_of_node shape.now node) }
{
    match shape.nodes.get(node as usize) {
        Some(name) => line.extend(name.as_str().as_bytes()),
        None => Ok(()),
    }
}

/// Appends a space, the channel's kind, a space and its ends.
pub fn append_channel(line: &mut List<u8>, shape: &Shape, channel: u32) -> Result<(), Memory>
    ensures { OnOk result (line.new ≡ line.old ++ channel_text shape.now channel) }
{
    match shape.channels.get(channel as usize) {
        Some(channel) => append_ends(line, shape, *channel),
        None => Ok(()),
    }
}

fn append_ends(line: &mut List<u8>, shape: &Shape, channel: Chan) -> Result<(), Memory>
    ensures { OnOk result (line.new ≡ line.old ++ spaced_ends_text shape.now channel) }
{
    match channel.kind {
        ChanKind::Data => line.extend(b" data ")?,
        ChanKind::Ack => line.extend(b" ack ")?,
    }
    append_node_name(line, shape, channel.from)?;
    line.extend(b">")?;
    append_node_name(line, shape, channel.to)
}
