// An event with an offence, as it is drawn.
ghost use Rattle.std.specs.Prelude.{◌≡◌, ◌<◌, ◌≤◌, ◌++◌, ◌∷◌, [], ℕ, List as Items, IfOk};
ghost use Rattle.lt_arch.specs.declared.limits.TheConstants.{GREATEST_BOUND, GREATEST_TIME};
ghost use Rattle.lt_arch.specs.Deadline.{after_last};
ghost use Rattle.lt_arch.specs.Readers.{chan_count, from_of, to_of};
ghost use Rattle.lt_arch.specs.Schedule.{IsEventOf};
ghost use Rattle.lt_arch.specs.Shapes.{HaveSameNodes};
ghost use Rattle.lt_rows.specs.Texts.{event_text};
ghost use Rattle.lt_diagram.specs.declared.picture.Wrong.TheVariants as wrongs;
ghost use Rattle.lt_tape.specs.declared.asked.Asked.{Asked as OfAsked};
ghost use Rattle.lt_tape.specs.declared.stroke.Stroke.{Stroke as OfStroke};
ghost use Rattle.lt_tape.specs.Tapes.{IsTapeOf};
ghost use Rattle.lt_course.specs.Courses.{offence_bound, refused_by, wrong_by};
ghost use Rattle.lt_course.specs.Lasts.{last_mark_for, oldest_read};
ghost use Rattle.lt_course.specs.Placed.{IsPlacedOffence, IsTimelyLast};
ghost use Rattle.lt_course.specs.Whole.{stop_time};

use crate::course::RefusedEvent;
use crate::reading::first_sent_or;
use crate::sketch::chan_at;
use lt_arch::{Event, Offence, Shape, Timing};
use lt_audit::Auditor;
use lt_base::{List, Memory};
use lt_diagram::Wrong;
use lt_lossy::LossyOffence;
use lt_rows::print_event;
use lt_tape::{Tape, time_or_zero};
use std::alloc::Global;

/// When the node of an offence was activated last, by a tape of the strokes before it.
pub fn last_mark_for(tape: &Tape, offence: Offence) -> Option<u64>
    requires { (asked : OfAsked) × (nodes : ℕ) × (xs : Items OfStroke) × IsTapeOf tape.now asked nodes xs }
    ensures value { (asked : OfAsked) (nodes : ℕ) (xs : Items OfStroke) → IsTapeOf tape.now asked nodes xs → result ≡ last_mark_for xs offence }
    ensures timely { IsTimelyLast result }
{
    match offence {
        Offence::NodeOverdue(node) => tape.last_mark(node),
        Offence::TooSoon(node) => tape.last_mark(node),
        Offence::AfterEnd => None,
        Offence::Backwards => None,
        Offence::ChannelOverdue(_) => None,
        Offence::NothingSent(_) => None,
        Offence::TooEarly(_) => None,
        Offence::NoEnd => None,
    }
}

/// The latest time that matters of an event that is refused.
pub(crate) fn stop_time(refused: &RefusedEvent) -> u64
    ensures { result ≡ stop_time refused.now }
{
    refused.time.max(time_or_zero(refused.bound))
}

/// When the oldest message in transit on the channel of an offence was sent.
pub(crate) fn oldest_read(auditor: &Auditor, offence: Offence) -> u64
    requires { IsPlacedOffence auditor.now.shape offence }
    ensures value { result ≡ oldest_read auditor.now offence }
    ensures timely { result ≤ GREATEST_TIME }
{
    match offence {
        Offence::ChannelOverdue(channel) => first_sent_or(auditor, channel, 0),
        Offence::TooEarly(channel) => first_sent_or(auditor, channel, 0),
        Offence::AfterEnd => 0,
        Offence::Backwards => 0,
        Offence::NodeOverdue(_) => 0,
        Offence::TooSoon(_) => 0,
        Offence::NothingSent(_) => 0,
        Offence::NoEnd => 0,
    }
}

fn after_last(last: Option<u64>, gap: u64) -> u64
    requires last { IsTimelyLast last }
    requires gap { gap ≤ GREATEST_BOUND }
    ensures { result ≡ after_last last gap }
{
    match last {
        None => gap,
        Some(last) => last + gap,
    }
}

/// The tick by which the node or the message of an offence was due, or before which it was not.
pub fn offence_bound(
    shape: &Shape,
    timing: &Timing,
    last: Option<u64>,
    oldest: u64,
    offence: Offence,
) -> Option<u64>
    requires same { HaveSameNodes shape.now timing.now }
    requires placed { IsPlacedOffence shape.now offence }
    requires last { IsTimelyLast last }
    requires oldest { oldest ≤ GREATEST_TIME }
    ensures { result ≡ offence_bound shape.now timing.now last oldest offence }
{
    match offence {
        Offence::NodeOverdue(node) => Some(after_last(last, timing.tmax_of(node))),
        Offence::TooSoon(node) => Some(after_last(last, timing.tmin_of(node))),
        Offence::ChannelOverdue(channel) => {
            let chan = chan_at(shape, channel);
            Some(oldest + timing.dmax_of(chan.from, chan.to))
        }
        Offence::TooEarly(channel) => {
            let chan = chan_at(shape, channel);
            Some(oldest + timing.dmin_of(chan.from, chan.to))
        }
        Offence::AfterEnd => None,
        Offence::Backwards => None,
        Offence::NothingSent(_) => None,
        Offence::NoEnd => None,
    }
}

// A message of a channel at which an event stands out.
fn untimely(shape: &Shape, channel: u32, sent: u64, come: u64) -> Wrong
    requires { channel < chan_count shape.now }
    ensures { result ≡ wrongs.Untimely (from_of shape.now channel) (to_of shape.now channel) sent come }
{
    let chan = chan_at(shape, channel);
    Wrong::Untimely {
        from: chan.from,
        to: chan.to,
        sent,
        come,
    }
}

fn unsent(shape: &Shape, channel: u32) -> Wrong
    requires { channel < chan_count shape.now }
    ensures { result ≡ wrongs.Unsent (from_of shape.now channel) (to_of shape.now channel) }
{
    let chan = chan_at(shape, channel);
    Wrong::Unsent {
        from: chan.from,
        to: chan.to,
    }
}

/// Where an event stands out.
pub fn wrong_by(
    shape: &Shape,
    last: Option<u64>,
    oldest: u64,
    at: u64,
    bound: u64,
    offence: Offence,
) -> Wrong
    requires { IsPlacedOffence shape.now offence }
    ensures { result ≡ wrong_by shape.now last oldest at bound offence }
{
    match offence {
        Offence::NodeOverdue(node) => Wrong::Absent { node, due: bound },
        Offence::TooSoon(node) => Wrong::Soon {
            node,
            last: time_or_zero(last),
            least: bound,
        },
        Offence::ChannelOverdue(channel) => untimely(shape, channel, oldest, bound),
        Offence::TooEarly(channel) => untimely(shape, channel, oldest, at),
        Offence::NothingSent(channel) => unsent(shape, channel),
        Offence::AfterEnd => Wrong::Moment,
        Offence::Backwards => Wrong::Moment,
        Offence::NoEnd => Wrong::Moment,
    }
}

// The row of an event without its line feed.
fn row_of(alloc: Global, shape: &Shape, e: &Event) -> Result<List<u8>, Memory>
    requires { IsEventOf shape.now e.now }
    ensures { IfOk result (λ row. row ≡ event_text shape.now e.now) }
{
    let row = print_event(alloc, e, shape)?;
    Ok(without_last(row))
}

/// A row without its line feed.
#[tactic(auto, using(crate::proofs::Sent::popped))]
pub fn without_last(row: List<u8>) -> List<u8>
    ensures { (text : Items ℕ) (last : ℕ) → row ≡ text ++ last ∷ [] → result ≡ text }
{
    let mut bytes = row.into_vec();
    let _ = bytes.pop();
    List::of(bytes)
}

/// An event with its offence, by when its node was activated last and when the oldest message on its channel was sent.
pub(crate) fn refused_by(
    alloc: Global,
    shape: &Shape,
    timing: &Timing,
    last: Option<u64>,
    oldest: u64,
    e: &Event,
    offence: Offence,
) -> Result<RefusedEvent, Memory>
    requires same { HaveSameNodes shape.now timing.now }
    requires event { IsEventOf shape.now e.now }
    requires placed { IsPlacedOffence shape.now offence }
    requires last { IsTimelyLast last }
    requires oldest { oldest ≤ GREATEST_TIME }
    ensures { IfOk result (λ x. x ≡ refused_by shape.now timing.now last oldest e.now offence) }
{
    let row = row_of(alloc, shape, e)?;
    let bound = offence_bound(shape, timing, last, oldest, offence);
    Ok(RefusedEvent {
        time: e.time(),
        row,
        offence: LossyOffence::Common(offence),
        bound,
        wrong: wrong_by(shape, last, oldest, e.time(), time_or_zero(bound), offence),
    })
}
