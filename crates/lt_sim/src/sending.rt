// The delays of the messages that a node sends.
ghost use Rattle.std.specs.Prelude.{◌≡◌, ◌<◌, ◌≤◌, ◌+◌, ◌-◌, ◌*◌, ◌^◌, ℕ, true, false, IfOk, length};
ghost use Rattle.rand_core.specs.Steps.{stream_of};
ghost use Rattle.rand_xoshiro.specs.SplitMix64.{splitmix_steps};
ghost use Rattle.lt_arch.specs.declared.limits.TheConstants.{GREATEST_TIME};
ghost use Rattle.lt_arch.specs.Readers.{chan_count, node_count};
ghost use Rattle.lt_arch.specs.Shapes.{HaveSameNodes};
ghost use Rattle.lt_sim.specs.Words.{left_after};
ghost use Rattle.lt_base.specs.Truths.{how_many};
ghost use Rattle.lt_sim.specs.Tallies.{leads_kind_from};
ghost use Rattle.lt_sim.specs.Spans.{IsSpanBelow, AreSpans, DrawsDelays};

use crate::pending::set_pending;
use crate::tally::is_outgoing;
use crate::words::draw;
use lt_arch::{Chan, Deadlines, Shape, Timing};
use lt_base::Memory;
use rand_xoshiro::SplitMix64;
use std::alloc::Global;

/// The channels from one number up to another, which is not among them.
#[derive(Clone, Copy)]
pub struct Span {
    pub first: u32,
    pub end: u32,
}

/// The spans of all nodes, over the channels of one kind.
fn spans(alloc: Global, shape: &Shape, data_kind: bool) -> Result<Vec<Span>, Memory>
    requires { 2 * (node_count shape.now + chan_count shape.now) < 2 ^ 32 }
    ensures { IfOk result (λ spans. AreSpans shape.now.channels data_kind (node_count shape.now) spans.items) }
{
    let channels = shape.channels.as_slice();
    let mut spans = Vec::new(alloc);
    for node in 0..shape.nodes.len() {
        spans.push(span_of(channels, node as u32, data_kind))?;
    }
    Ok(spans)
}

/// The spans of all nodes, over the data channels and over those of acknowledgements.
pub fn both_spans(alloc: Global, shape: &Shape) -> Result<(Vec<Span>, Vec<Span>), Memory>
    requires { 2 * (node_count shape.now + chan_count shape.now) < 2 ^ 32 }
    ensures messages { IfOk result (λ both. AreSpans shape.now.channels true (node_count shape.now) both.0.items) }
    ensures acks { IfOk result (λ both. AreSpans shape.now.channels false (node_count shape.now) both.1.items) }
{
    let messages = spans(alloc, shape, true)?;
    let acks = spans(alloc, shape, false)?;
    Ok((messages, acks))
}

// Where the channels of a kind from a node stand.
fn span_of(channels: &[Chan], node: u32, data_kind: bool) -> Span
    requires { length channels.now < 2 ^ 32 }
    ensures { IsSpanBelow channels.now data_kind node (length channels.now) result }
{
    let mut span = Span { first: 0, end: 0 };
    for (c, channel) in channels.iter().enumerate() {
        let has = is_outgoing(*channel, node, data_kind);
        if has {
            span = widen(span, c as u32);
        }
    }
    span
}

// With one more channel behind those that it holds.
fn widen(span: Span, c: u32) -> Span
    requires { c < 2 ^ 32 - 1 }
    ensures first { (span.end ≡ 0 → result.first ≡ c) × (0 < span.end → result.first ≡ span.first) }
    ensures end { result.end ≡ c + 1 }
{
    Span {
        first: if span.end == 0 { c } else { span.first },
        end: c + 1,
    }
}

/// Draws the delays of the messages that a node sends on its channels of one kind, which makes their deliveries pending.
pub fn draw_delays(
    generator: &mut SplitMix64,
    pending: &mut Deadlines,
    shape: &Shape,
    timing: &Timing,
    span: Span,
    node: u32,
    data_kind: bool,
    at: u64,
)
    requires same { HaveSameNodes shape.now timing.now }
    requires numbered { 2 * (node_count shape.now + chan_count shape.now) < 2 ^ 32 }
    requires places { length pending.old ≡ node_count shape.now + chan_count shape.now }
    requires span { IsSpanBelow shape.now.channels data_kind node (chan_count shape.now) span }
    requires time { at ≤ GREATEST_TIME }
    ensures left { (seed words : ℕ) → stream_of splitmix_steps generator.old ≡ left_after seed words
        → stream_of splitmix_steps generator.new
        ≡ left_after seed (words + how_many (leads_kind_from shape.now.channels data_kind node) (chan_count shape.now)) }
    ensures drawn { (seed words : ℕ) → stream_of splitmix_steps generator.old ≡ left_after seed words
        → DrawsDelays shape.now timing.now seed words at (chan_count shape.now) (leads_kind_from shape.now.channels data_kind node) pending.old pending.new }
{
    let channels = shape.channels.as_slice();
    let nodes = shape.nodes.len() as u32;
    for c in span.first..span.end {
        let channel = channels[c as usize];
        let has = is_outgoing(channel, node, data_kind);
        if has {
            let least = timing.dmin_of(channel.from, channel.to);
            let greatest = timing.dmax_of(channel.from, channel.to);
            let delay = draw(generator, least, greatest);
            set_pending(pending, nodes + c, Some(at + delay));
        }
    }
}
