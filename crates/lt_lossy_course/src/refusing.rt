// An event with an offence, as it is drawn.
ghost use Rattle.std.specs.Prelude.{◌≡◌, ◌<◌, ◌≤◌, ℕ, List as Items, IfOk};
ghost use Rattle.lt_arch.specs.declared.limits.TheConstants.{GREATEST_TIME};
ghost use Rattle.lt_arch.specs.Readers.{chan_count, from_of, to_of};
ghost use Rattle.lt_arch.specs.Shapes.{HaveSameNodes};
ghost use Rattle.lt_lossy.specs.Events.{IsLossyEventOf};
ghost use Rattle.lt_lossy.specs.Times.{lossy_time_of};
ghost use Rattle.lt_losing.specs.LossyFile.{lossy_event_text};
ghost use Rattle.lt_diagram.specs.declared.picture.Wrong.TheVariants as wrongs;
ghost use Rattle.lt_tape.specs.declared.asked.Asked.{Asked as OfAsked};
ghost use Rattle.lt_tape.specs.declared.stroke.Stroke.{Stroke as OfStroke};
ghost use Rattle.lt_tape.specs.Tapes.{IsTapeOf};
ghost use Rattle.lt_course.specs.Placed.{IsPlacedOffence, IsTimelyLast};
ghost use Rattle.lt_lossy_course.specs.LossyCourses.{lossy_offence_bound, lossy_refused_by, lossy_wrong_by};
ghost use Rattle.lt_lossy_course.specs.LossyLasts.{IsLossyPlacedOffence, common_oldest_read, first_time_on, lossy_mark_for, lossy_oldest_read};

use crate::reading::sent_at;
use lt_arch::{Event, Offence, Shape, Timing};
use lt_base::{List, Memory};
use lt_course::{RefusedEvent, chan_at, last_mark_for, offence_bound, without_last, wrong_by};
use lt_diagram::Wrong;
use lt_losing::extend_lossy_event;
use lt_lossy::{LossyEvent, LossyOffence};
use lt_lossy_audit::LossyAuditor;
use lt_tape::{Tape, time_or_zero};
use std::alloc::Global;

/// When the node of an offence was activated last, by a tape of the strokes before it.
pub(crate) fn mark_for(tape: &Tape, offence: LossyOffence) -> Option<u64>
    requires { (asked : OfAsked) × (nodes : ℕ) × (xs : Items OfStroke) × IsTapeOf tape.now asked nodes xs }
    ensures value { (asked : OfAsked) (nodes : ℕ) (xs : Items OfStroke) → IsTapeOf tape.now asked nodes xs → result ≡ lossy_mark_for xs offence }
    ensures timely { IsTimelyLast result }
{
    match offence {
        LossyOffence::Common(offence) => last_mark_for(tape, offence),
        LossyOffence::TooManyLost(_) => None,
    }
}

// When the oldest message in transit on a channel was sent.
fn first_time_on(auditor: &LossyAuditor, channel: u32) -> u64
    requires { channel < chan_count auditor.now.shape }
    ensures value { result ≡ first_time_on auditor.now channel }
    ensures timely { result ≤ GREATEST_TIME }
{
    sent_at(auditor, channel, 0, 0)
}

fn common_oldest_read(auditor: &LossyAuditor, offence: Offence) -> u64
    requires { IsPlacedOffence auditor.now.shape offence }
    ensures value { result ≡ common_oldest_read auditor.now offence }
    ensures timely { result ≤ GREATEST_TIME }
{
    match offence {
        Offence::ChannelOverdue(channel) => first_time_on(auditor, channel),
        Offence::TooEarly(channel) => first_time_on(auditor, channel),
        Offence::AfterEnd => 0,
        Offence::Backwards => 0,
        Offence::NodeOverdue(_) => 0,
        Offence::TooSoon(_) => 0,
        Offence::NothingSent(_) => 0,
        Offence::NoEnd => 0,
    }
}

/// When the oldest message in transit on the channel of an offence was sent.
pub(crate) fn oldest_read(auditor: &LossyAuditor, offence: LossyOffence) -> u64
    requires { IsLossyPlacedOffence auditor.now.shape offence }
    ensures value { result ≡ lossy_oldest_read auditor.now offence }
    ensures timely { result ≤ GREATEST_TIME }
{
    match offence {
        LossyOffence::Common(offence) => common_oldest_read(auditor, offence),
        LossyOffence::TooManyLost(channel) => first_time_on(auditor, channel),
    }
}

// The tick by which the node or the message of an offence was due, or before which it was not.
fn bound_of(
    shape: &Shape,
    timing: &Timing,
    last: Option<u64>,
    oldest: u64,
    offence: LossyOffence,
) -> Option<u64>
    requires same { HaveSameNodes shape.now timing.now }
    requires placed { IsLossyPlacedOffence shape.now offence }
    requires last { IsTimelyLast last }
    requires oldest { oldest ≤ GREATEST_TIME }
    ensures { result ≡ lossy_offence_bound shape.now timing.now last oldest offence }
{
    match offence {
        LossyOffence::Common(offence) => offence_bound(shape, timing, last, oldest, offence),
        LossyOffence::TooManyLost(_) => None,
    }
}

// A message of a channel that had to come, and was lost.
fn gone(shape: &Shape, channel: u32, sent: u64) -> Wrong
    requires { channel < chan_count shape.now }
    ensures { result ≡ wrongs.Gone (from_of shape.now channel) (to_of shape.now channel) sent }
{
    let chan = chan_at(shape, channel);
    Wrong::Gone {
        from: chan.from,
        to: chan.to,
        sent,
    }
}

// Where an event stands out.
fn wrong_of(
    shape: &Shape,
    last: Option<u64>,
    oldest: u64,
    at: u64,
    bound: u64,
    offence: LossyOffence,
) -> Wrong
    requires { IsLossyPlacedOffence shape.now offence }
    ensures { result ≡ lossy_wrong_by shape.now last oldest at bound offence }
{
    match offence {
        LossyOffence::Common(offence) => wrong_by(shape, last, oldest, at, bound, offence),
        LossyOffence::TooManyLost(channel) => gone(shape, channel, oldest),
    }
}

// The row of an event without its line feed.
fn row_of(alloc: Global, shape: &Shape, e: &LossyEvent) -> Result<List<u8>, Memory>
    requires { IsLossyEventOf shape.now e.now }
    ensures { IfOk result (λ row. row ≡ lossy_event_text shape.now e.now) }
{
    let mut row = List::new(alloc);
    extend_lossy_event(&mut row, e, shape)?;
    Ok(without_last(row))
}

fn time_of(e: &LossyEvent) -> u64
    ensures { result ≡ lossy_time_of e.now }
{
    match e {
        LossyEvent::Plain(Event::Act(_, at)) => *at,
        LossyEvent::Plain(Event::Del(_, at)) => *at,
        LossyEvent::Plain(Event::End(at)) => *at,
        LossyEvent::Lose(_, at) => *at,
    }
}

/// An event with its offence, by when its node was activated last and when the oldest message on its channel was sent.
pub(crate) fn refused_by(
    alloc: Global,
    shape: &Shape,
    timing: &Timing,
    last: Option<u64>,
    oldest: u64,
    e: &LossyEvent,
    offence: LossyOffence,
) -> Result<RefusedEvent, Memory>
    requires same { HaveSameNodes shape.now timing.now }
    requires event { IsLossyEventOf shape.now e.now }
    requires placed { IsLossyPlacedOffence shape.now offence }
    requires last { IsTimelyLast last }
    requires oldest { oldest ≤ GREATEST_TIME }
    ensures { IfOk result (λ x. x ≡ lossy_refused_by shape.now timing.now last oldest e.now offence) }
{
    let row = row_of(alloc, shape, e)?;
    let time = time_of(e);
    let bound = bound_of(shape, timing, last, oldest, offence);
    let wrong = wrong_of(shape, last, oldest, time, time_or_zero(bound), offence);
    Ok(RefusedEvent {
        time,
        row,
        offence,
        bound,
        wrong,
    })
}
