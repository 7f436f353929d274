// The messages that a deed sends.
ghost use Rattle.std.specs.Prelude.{◌≡◌, ◌<◌, ◌≤◌, ◌+◌, ◌^◌, ℕ, true, Some, All, length, OnOk, OnErr, slice_set};
ghost use Rattle.lt_arch.specs.declared.limits.TheConstants.{GREATEST_TIME};
ghost use Rattle.lt_arch.specs.Readers.{node_count, chan_count, is_data, is_back_pressure};
ghost use Rattle.lt_arch.specs.Step.{is_send, with_delivered, with_sent};
ghost use Rattle.lt_arch.specs.Times.{sent_in};
ghost use Rattle.lt_link.specs.Ports.{is_from};
ghost use Rattle.lt_audit.specs.Audit.{kept_of, line_at, oldest};
ghost use Rattle.lt_audit.specs.Acts.{SameLines, LinesHaveRoom, HasRoomOn, HasFullLine, SentBelow, audited_chan, is_sent_on, is_data_from, is_ack_from};

use crate::line::Line;
use lt_arch::{Chan, ChanKind, Deed, Protocol, Watch};
use lt_base::{Memory, Steps};
use lt_link::Wiring;
use std::sync::ledger::Ledger;

/// Takes room for one more message on each channel from a node.
pub fn make_room(wiring: &Wiring, lines: &mut Vec<Line>, node: u32) -> Result<(), Memory>
    requires lines { length lines.old.items ≡ chan_count wiring.now }
    requires node { node < node_count wiring.now }
    ensures same { SameLines lines.old.items lines.new.items }
    ensures room { OnOk result (LinesHaveRoom wiring.now.channels lines.new.items node (length wiring.now.channels)) }
    ensures full { OnErr result (HasFullLine wiring.now.channels lines.old.items node) }
{
    make_room_on(wiring, lines, node, true)?;
    make_room_on(wiring, lines, node, false)?;
    Ok(())
}

// The same on data channels, or on the others.
fn make_room_on(wiring: &Wiring, lines: &mut Vec<Line>, node: u32, kind: bool) -> Result<(), Memory>
    requires lines { length lines.old.items ≡ chan_count wiring.now }
    requires node { node < node_count wiring.now }
    ensures same { SameLines lines.old.items lines.new.items }
    ensures room { OnOk result (HasRoomOn (is_from wiring.now.channels node kind) lines.new.items (length wiring.now.channels)) }
    ensures full { OnErr result (HasFullLine wiring.now.channels lines.old.items node) }
{
    let numbers = wiring.outgoing(node, kind);
    for number in numbers {
        let c = *number as usize;
        lines[c].make_room()?;
    }
    Ok(())
}

fn is_back_pressure(protocol: Protocol) -> bool
    ensures { result ≡ is_back_pressure protocol }
{
    match protocol {
        Protocol::BackPressure => true,
        Protocol::TimeBased => false,
    }
}

fn is_send(deed: Deed) -> bool
    ensures { result ≡ is_send deed }
{
    match deed {
        Deed::Nothing => false,
        Deed::Execute => false,
        Deed::Send => true,
    }
}

fn carries_data(channel: &Chan) -> bool
    ensures { result ≡ is_data channel.now.kind }
{
    match channel.kind {
        ChanKind::Data => true,
        ChanKind::Ack => false,
    }
}

fn takes_data(channel: &Chan, node: u32) -> bool
    ensures { result ≡ is_data_from channel.now node }
{
    channel.from == node && carries_data(channel)
}

fn takes_acks(channel: &Chan, node: u32) -> bool
    ensures { result ≡ is_ack_from channel.now node }
{
    channel.from == node && !carries_data(channel)
}

fn is_sent_on(protocol: Protocol, node: u32, deed: Deed, channel: &Chan) -> bool
    ensures { result ≡ is_sent_on protocol node deed channel.now }
{
    match deed {
        Deed::Nothing => false,
        Deed::Execute => is_back_pressure(protocol) && takes_acks(channel, node),
        Deed::Send => takes_data(channel, node),
    }
}

/// Sends on each channel on which a deed of a node sends, and tells the watch where no older message is in transit.
pub fn send_all<L: Ledger>(
    wiring: &Wiring,
    lines: &mut Vec<Line>,
    watch: &mut Watch,
    protocol: Protocol,
    node: u32,
    deed: Deed,
    at: u64,
    steps: &mut Steps<L>,
)
    requires node { node < node_count wiring.now }
    requires lines { length lines.old.items ≡ chan_count wiring.now }
    requires sends { length watch.old.sends ≡ chan_count wiring.now }
    requires room { LinesHaveRoom wiring.now.channels lines.old.items node (length wiring.now.channels) }
    requires oldest { (c : ℕ) → c < chan_count wiring.now → sent_in watch.old c ≡ oldest (line_at lines.old.items c).transit }
    requires time { at ≤ GREATEST_TIME }
    ensures { SentBelow (λ c. is_sent_on protocol node deed (audited_chan wiring.now.channels c)) at (length wiring.now.channels)
        lines.old.items lines.new.items watch.old watch.new }
{
    let channels = wiring.channels();
    let numbers = wiring.outgoing(node, is_send(deed));
    for number in numbers {
        let c = *number as usize;
        if is_sent_on(protocol, node, deed, &channels[c]) {
            send(&mut lines[c], watch, *number, at, steps);
        }
    }
}

// Sends on one channel.
fn send<L: Ledger>(line: &mut Line, watch: &mut Watch, c: u32, at: u64, steps: &mut Steps<L>)
    requires channel { c < length watch.old.sends }
    requires room { 0 < line.old.room }
    requires oldest { sent_in watch.old c ≡ oldest line.old.transit }
    requires time { at ≤ GREATEST_TIME }
    ensures line { kept_of line.new ≡ with_sent true at (kept_of line.old) }
    ensures watch { watch.new ≡ record watch.old { sends = slice_set watch.old.sends c (oldest line.new.transit) } }
{
    let idle = line.oldest().is_none();
    line.send(at);
    if idle {
        watch.sent(c, at, steps);
    }
}

/// A channel delivers its oldest message, and the watch is told of the next one.
pub fn deliver<L: Ledger>(line: &mut Line, watch: &mut Watch, c: u32, at: u64, steps: &mut Steps<L>)
    requires channel { c < length watch.old.sends }
    requires counted { line.old.delivered + length line.old.transit < 2 ^ 32 }
    requires timely { All (λ sent. sent ≤ GREATEST_TIME) line.old.transit }
    requires time { at ≤ GREATEST_TIME }
    ensures line { kept_of line.new ≡ with_delivered (kept_of line.old) line.old.transit }
    ensures watch { watch.new ≡ record watch.old { sends = slice_set watch.old.sends c (oldest line.new.transit); latest = Some at } }
{
    line.deliver();
    watch.delivered(c, at, steps);
    if let Some(sent) = line.oldest() {
        watch.sent(c, sent, steps);
    }
}
