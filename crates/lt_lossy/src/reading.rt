// What a line reads as where links lose messages.
ghost use Rattle.std.specs.Prelude.{◌≡◌, ◌≤◌, ◌<◌, ◌^◌, length, bytes_eq, IfOk, Err};
ghost use Rattle.lt_arch.specs.declared.limits.TheConstants.{GREATEST_TIME};
ghost use Rattle.lt_rows.specs.Events.{event_of, event_at};
ghost use Rattle.lt_lossy.specs.Events as events;

use crate::LossyEvent;
use lt_arch::{ChanKind, Shape};
use lt_rows::{RowFault, chan_named, cut_fields, read_event, time_in};

/// The event of a line, as `read_event` answers it, or a loss. Nodes and channels are named as in the shape, of which there are fewer than 2^32.
pub fn read_lossy(line: &[u8], shape: &Shape) -> Result<LossyEvent, RowFault>
    requires nodes { length shape.now.nodes < 2 ^ 32 }
    requires channels { length shape.now.channels < 2 ^ 32 }
    ensures event { result ≡ events.lossy_event_of shape.now line.now }
    ensures of_shape { IfOk result (events.IsLossyEventOf shape.now) }
{
    match read_event(line, shape) {
        Ok(e) => Ok(LossyEvent::Plain(e)),
        Err(fault) => read_other(line, shape, fault),
    }
}

// The loss of a line that is no event without losses, for this reason.
fn read_other(line: &[u8], shape: &Shape, fault: RowFault) -> Result<LossyEvent, RowFault>
    requires channels { length shape.now.channels < 2 ^ 32 }
    requires other { event_of shape.now line.now ≡ Err fault }
    ensures event { result ≡ events.lossy_event_of shape.now line.now }
    ensures of_shape { IfOk result (events.IsLossyEventOf shape.now) }
{
    match fault {
        RowFault::Kind => read_loss(line, shape),
        _ => Err(fault),
    }
}

// The loss of a line whose kind is that of no event without losses.
#[tactic(auto, unfolding(crate::specs::Events::lossy_event_of))]
fn read_loss(line: &[u8], shape: &Shape) -> Result<LossyEvent, RowFault>
    requires channels { length shape.now.channels < 2 ^ 32 }
    requires other { event_of shape.now line.now ≡ Err RowFault.Kind }
    ensures event { result ≡ events.lossy_event_of shape.now line.now }
    ensures of_shape { IfOk result (events.IsLossyEventOf shape.now) }
{
    let Some(fields) = cut_fields(line) else {
        return Err(RowFault::NotCsv);
    };
    match time_in(fields.time) {
        Some(time) => loss_at(shape, fields.kind, fields.place, time),
        None => Err(RowFault::Time),
    }
}

#[tactic(auto, unfolding(crate::specs::Events::lossy_event_at))]
fn loss_at(shape: &Shape, kind: &[u8], place: &[u8], time: u64) -> Result<LossyEvent, RowFault>
    requires channels { length shape.now.channels < 2 ^ 32 }
    requires time { time ≤ GREATEST_TIME }
    requires other { event_at shape.now kind.now place.now time ≡ Err RowFault.Kind }
    ensures event { result ≡ events.lossy_event_at shape.now kind.now place.now time }
    ensures of_shape { IfOk result (events.IsLossyEventOf shape.now) }
{
    if is(kind, b"losedata") {
        loss(chan_named(shape, ChanKind::Data, place), time)
    } else if is(kind, b"loseack") {
        loss(chan_named(shape, ChanKind::Ack, place), time)
    } else {
        Err(RowFault::Kind)
    }
}

fn loss(chan: Option<u32>, time: u64) -> Result<LossyEvent, RowFault>
    ensures { result ≡ events.loss_event chan time }
{
    match chan {
        Some(chan) => Ok(LossyEvent::Lose(chan, time)),
        None => Err(RowFault::UnknownPlace),
    }
}

fn is(text: &[u8], other: &[u8]) -> bool
    ensures { result ≡ bytes_eq text.now other.now }
{
    text == other
}
