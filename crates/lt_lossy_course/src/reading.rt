// What is read of an auditor for a picture.
ghost use Rattle.std.specs.Prelude.{◌≡◌, ◌<◌, ◌≤◌, slice_index_or};
ghost use Rattle.lt_arch.specs.declared.limits.TheConstants.{GREATEST_TIME};
ghost use Rattle.lt_arch.specs.Readers.{chan_count};
ghost use Rattle.lt_arch.specs.Shapes.{HaveSameNodes};
ghost use Rattle.lt_lossy.specs.Events.{IsLossyPlacedIn};
ghost use Rattle.lt_lossy_audit.specs.Links.{link_numbers, link_seen, link_send_times};
ghost use Rattle.lt_lossy_course.specs.LossyStrokes.{placed_message, pending_message};
ghost use Rattle.lt_lossy_course.specs.LossySketches.{IsLeaving, IsLossyDeedDone, IsLossyExecuted, TakesLeaving, left_message};

use crate::sketch::{Leaving, message_arrow};
use lt_arch::{Deed, Event, Timing};
use lt_course::chan_at;
use lt_diagram::{Arrow, Fate};
use lt_lossy::LossyEvent;
use lt_lossy_audit::LossyAuditor;
use lt_place::Crossing;

/// How many instants the node has executed that an event activates.
pub(crate) fn executed_at(auditor: &LossyAuditor, e: &LossyEvent) -> u32
    requires { IsLossyPlacedIn auditor.now.shape e.now }
    ensures { IsLossyExecuted auditor.now e.now result }
{
    match e {
        LossyEvent::Plain(Event::Act(node, _)) => auditor.executed(*node),
        LossyEvent::Plain(Event::Del(_, _)) => 0,
        LossyEvent::Plain(Event::End(_)) => 0,
        LossyEvent::Lose(_, _) => 0,
    }
}

/// What the node did that an event activated.
pub(crate) fn done_at(auditor: &LossyAuditor, e: &LossyEvent) -> Deed
    requires { IsLossyPlacedIn auditor.now.shape e.now }
    ensures { IsLossyDeedDone auditor.now e.now result }
{
    match e {
        LossyEvent::Plain(Event::Act(node, _)) => auditor.did(*node),
        LossyEvent::Plain(Event::Del(_, _)) => Deed::Nothing,
        LossyEvent::Plain(Event::End(_)) => Deed::Nothing,
        LossyEvent::Lose(_, _) => Deed::Nothing,
    }
}

/// The message that an event takes from its channel.
pub(crate) fn leaving_at(auditor: &LossyAuditor, e: &LossyEvent) -> Leaving
    requires { IsLossyPlacedIn auditor.now.shape e.now }
    ensures { TakesLeaving auditor.now e.now result }
{
    match e {
        LossyEvent::Plain(Event::Act(_, _)) => nothing_leaves(),
        LossyEvent::Plain(Event::Del(channel, at)) => placed_message(auditor, *channel, 0, *at),
        LossyEvent::Plain(Event::End(_)) => nothing_leaves(),
        LossyEvent::Lose(channel, at) => placed_message(auditor, *channel, 0, *at),
    }
}

// What stands where no message leaves a channel.
fn nothing_leaves() -> Leaving {
    Leaving {
        newest: 0,
        number: 0,
        sent: 0,
    }
}

/// The message in transit on a channel at this place; where there is none, one of number 0 that is sent at this time.
#[tactic(auto, using(crate::proofs::Sent::both_read))]
pub(crate) fn placed_message(
    auditor: &LossyAuditor,
    channel: u32,
    place: usize,
    none: u64,
) -> Leaving
    requires { channel < chan_count auditor.now.shape }
    ensures newest { result.newest ≡ (link_seen auditor.now.links channel).newest }
    ensures message { left_message result ≡ placed_message none (link_seen auditor.now.links channel).transit place }
    ensures timely { none ≤ GREATEST_TIME → result.sent ≤ GREATEST_TIME }
{
    let number = number_at(auditor, channel, place);
    let sent = sent_at(auditor, channel, place, none);
    Leaving {
        newest: auditor.newest(channel),
        number,
        sent,
    }
}

#[tactic(auto, using(crate::proofs::Sent::got_some, crate::proofs::Sent::got_none))]
fn number_at(auditor: &LossyAuditor, channel: u32, place: usize) -> u32
    requires { channel < chan_count auditor.now.shape }
    ensures { result ≡ slice_index_or (link_numbers (link_seen auditor.now.links channel)) place 0 }
{
    match auditor.number(channel, place) {
        Some(number) => number,
        None => 0,
    }
}

/// The send time of the message in transit on a channel at this place, the oldest one first, or another time where there is none.
#[tactic(auto, using(crate::proofs::Sent::got_some, crate::proofs::Sent::got_none))]
pub(crate) fn sent_at(auditor: &LossyAuditor, channel: u32, place: usize, none: u64) -> u64
    requires { channel < chan_count auditor.now.shape }
    ensures value { result ≡ slice_index_or (link_send_times (link_seen auditor.now.links channel)) place none }
    ensures timely { none ≤ GREATEST_TIME → result ≤ GREATEST_TIME }
{
    match auditor.in_transit(channel, place) {
        Some(sent) => sent,
        None => none,
    }
}

/// The arrow of a message in transit, up to when it is due.
#[tactic(auto)]
pub(crate) fn pending_arrow(
    auditor: &LossyAuditor,
    cross: &[Crossing],
    timing: &Timing,
    channel: u32,
    message: Leaving,
) -> Arrow
    requires same { HaveSameNodes auditor.now.shape timing.now }
    requires channel { channel < chan_count auditor.now.shape }
    requires timely { message.sent ≤ GREATEST_TIME }
    ensures { result ≡ pending_message cross.now auditor.now.shape timing.now channel message.newest (left_message message) }
{
    let shape = auditor.shape();
    let chan = chan_at(shape, channel);
    let due = message.sent + timing.dmax_of(chan.from, chan.to);
    message_arrow(cross, shape, channel, message, due, Fate::Pending)
}
