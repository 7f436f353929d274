// The messages that a node sends.
ghost use Rattle.std.specs.Prelude.{◌≡◌, ◌<◌, ◌≤◌, ◌&&◌, ◌==◌, ◌^◌, ℕ, true, nat_lt, length, slice_set, if◌then◌else◌};
ghost use Rattle.lt_arch.specs.declared.limits.TheConstants.{GREATEST_TIME};
ghost use Rattle.lt_arch.specs.Readers.{chan_count, is_data};
ghost use Rattle.lt_lossy.specs.Step.{link_with_message};
ghost use Rattle.lt_lossy.specs.Times.{queue_at, with_sent_on};
ghost use Rattle.lt_lossy.specs.Window.{room};
ghost use Rattle.lt_lossy_audit.specs.Links.{link_seen};
ghost use Rattle.lt_lossy_audit.specs.Nodes.{count_seen, sends_seen, sent_seen};
ghost use Rattle.lt_lossy_audit.specs.Sends.{SendsSeen, HasSpaceToSend};

use crate::hearing::chan_at;
use crate::link::Link;
use crate::seen::Seen;
use lt_arch::{Chan, ChanKind, Shape};
use lt_base::Steps;
use lt_lossy::LossyWatch;
use std::sync::ledger::Ledger;

/// Sends the messages of an activation: on each channel from the node the number that it counts there, but never 0.
pub fn send_all<L: Ledger>(
    links: &mut Vec<Link>,
    watch: &mut LossyWatch,
    shape: &Shape,
    node: u32,
    seen: &Seen,
    at: u64,
    steps: &mut Steps<L>,
)
    requires few { chan_count shape.now < 2 ^ 32 }
    requires links { length links.old.items ≡ chan_count shape.now }
    requires queues { length watch.old.queues ≡ chan_count shape.now }
    requires space { HasSpaceToSend shape.now node seen.now links.old.items watch.old }
    requires time { at ≤ GREATEST_TIME }
    ensures { SendsSeen shape.now node seen.now at (chan_count shape.now) links.old.items links.new.items watch.old watch.new }
{
    let sent = seen.sent();
    for c in 0..shape.channels.len() {
        let channel = chan_at(shape, c);
        let number = counted(channel.kind, sent, seen.executed);
        if is_sent(channel, node, number) {
            send(&mut links[c], watch, c as u32, number, at, steps);
        }
    }
}

// What a node counts on channels of a kind.
fn counted(kind: ChanKind, sent: u32, executed: u32) -> u32
    ensures { result ≡ (if is_data kind then sent else executed) }
{
    match kind {
        ChanKind::Data => sent,
        ChanKind::Ack => executed,
    }
}

// Whether a node sends a number on a channel.
fn is_sent(channel: Chan, node: u32, number: u32) -> bool
    ensures { result ≡ ((channel.from == node) && nat_lt 0 number) }
{
    channel.from == node && 0 < number
}

// Sends on one channel.
fn send<L: Ledger>(
    link: &mut Link,
    watch: &mut LossyWatch,
    c: u32,
    number: u32,
    at: u64,
    steps: &mut Steps<L>,
)
    requires channel { c < length watch.old.queues }
    requires space { length link.old.transit < room }
    requires queue { length (queue_at watch.old c) < room }
    requires time { at ≤ GREATEST_TIME }
    ensures link { link.new ≡ link_with_message true number at link.old }
    ensures watch { watch.new ≡ with_sent_on watch.old c at }
{
    link.send(number, at);
    watch.sent(c, at, steps);
}
