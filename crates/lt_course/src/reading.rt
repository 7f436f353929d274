// What is read of an auditor for a picture.
ghost use Rattle.std.specs.Prelude.{◌≡◌, ◌<◌, ◌≤◌, ℕ, List as Items, slice_index_or};
ghost use Rattle.lt_arch.specs.declared.event.Event.{Event as OfEvent};
ghost use Rattle.lt_arch.specs.declared.limits.TheConstants.{GREATEST_TIME};
ghost use Rattle.lt_arch.specs.declared.shape.Shape.{Shape as OfShape};
ghost use Rattle.lt_arch.specs.declared.timing.Timing.{Timing as OfTiming};
ghost use Rattle.lt_arch.specs.Readers.{chan_count};
ghost use Rattle.lt_arch.specs.Schedule.{IsPlacedIn};
ghost use Rattle.lt_arch.specs.Shapes.{HaveSameNodes};
ghost use Rattle.lt_audit.specs.Audit.{chan_at};
ghost use Rattle.lt_audit.specs.Standing.{AuditStands};
ghost use Rattle.lt_course.specs.Missed.{first_miss};
ghost use Rattle.lt_course.specs.Strokes.{first_sent_or, pending_arrow};
ghost use Rattle.lt_course.specs.Sketches.{IsDeedDone, IsExecuted, IsSent};

use crate::sketch::{arrow_of, chan_at};
use lt_arch::{Deed, Event, Timing};
use lt_audit::{Auditor, Miss};
use lt_diagram::{Arrow, Fate};
use lt_place::Crossing;

/// How many instants the node has executed that an event activates.
pub(crate) fn executed_at(auditor: &Auditor, e: &Event) -> u32
    requires { IsPlacedIn auditor.now.shape e.now }
    ensures { IsExecuted auditor.now e.now result }
{
    match e {
        Event::Act(node, _) => auditor.executed(*node),
        Event::Del(_, _) => 0,
        Event::End(_) => 0,
    }
}

/// When the message was sent that an event hands over.
pub(crate) fn sent_before(auditor: &Auditor, e: &Event) -> u64
    requires { IsPlacedIn auditor.now.shape e.now }
    ensures { IsSent auditor.now e.now result }
{
    match e {
        Event::Act(_, _) => 0,
        Event::Del(channel, at) => first_sent_or(auditor, *channel, *at),
        Event::End(_) => 0,
    }
}

/// What the node did that an event activated.
pub(crate) fn done_at(auditor: &Auditor, e: &Event) -> Deed
    requires { IsPlacedIn auditor.now.shape e.now }
    ensures { IsDeedDone auditor.now e.now result }
{
    match e {
        Event::Act(node, _) => auditor.did(*node),
        Event::Del(_, _) => Deed::Nothing,
        Event::End(_) => Deed::Nothing,
    }
}

/// The first execution with a message too few or too many, as far as events can be numbered.
pub(crate) fn first_miss(auditor: &Auditor) -> Option<Miss>
    ensures { (s : OfShape) (t : OfTiming) (rows : ℕ) (es : Items OfEvent) → AuditStands auditor.now s t rows es → result ≡ first_miss s t rows es }
{
    if auditor.taken_count() == 4_294_967_295 {
        return None;
    }
    auditor.miss()
}

/// The send time of the oldest message in transit on a channel, or this where there is none.
#[tactic(auto, using(crate::proofs::Sent::first_some, crate::proofs::Sent::first_none))]
pub(crate) fn first_sent_or(auditor: &Auditor, channel: u32, none: u64) -> u64
    requires channel { channel < chan_count auditor.now.shape }
    ensures value { result ≡ first_sent_or none (chan_at auditor.now.chans channel).transit }
    ensures timely { none ≤ GREATEST_TIME → result ≤ GREATEST_TIME }
{
    match auditor.in_transit(channel, 0) {
        Some(sent) => sent,
        None => none,
    }
}

/// When the message in transit on a channel at this place was sent.
#[tactic(auto, using(crate::proofs::Sent::got_some, crate::proofs::Sent::got_none))]
pub(crate) fn sent_at(auditor: &Auditor, channel: u32, place: usize) -> u64
    requires channel { channel < chan_count auditor.now.shape }
    ensures value { result ≡ slice_index_or (chan_at auditor.now.chans channel).transit place 0 }
    ensures timely { result ≤ GREATEST_TIME }
{
    match auditor.in_transit(channel, place) {
        Some(sent) => sent,
        None => 0,
    }
}

/// The arrow of a message in transit, up to when it is due.
#[tactic(auto)]
pub(crate) fn pending_arrow(
    auditor: &Auditor,
    cross: &[Crossing],
    timing: &Timing,
    channel: u32,
    sent: u64,
) -> Arrow
    requires same { HaveSameNodes auditor.now.shape timing.now }
    requires channel { channel < chan_count auditor.now.shape }
    requires timely { sent ≤ GREATEST_TIME }
    ensures { result ≡ pending_arrow cross.now auditor.now.shape timing.now channel sent }
{
    let shape = auditor.shape();
    let chan = chan_at(shape, channel);
    let due = sent + timing.dmax_of(chan.from, chan.to);
    arrow_of(cross, shape, channel, sent, due, Fate::Pending)
}
