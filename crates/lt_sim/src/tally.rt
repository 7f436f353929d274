// Of the channels of one kind that lead to each node, how many are fresh.
ghost use Rattle.std.specs.Prelude.{◌≡◌, ◌<◌, ◌+◌, ◌-◌, ◌*◌, ◌^◌, ◌==◌, ◌&&◌, nat_lt, IfOk, length, replicate, slice_set, slice_index_or};
ghost use Rattle.lt_arch.specs.Readers.{is_data, chan_count, node_count};
ghost use Rattle.lt_base.specs.Truths.{how_many};
ghost use Rattle.lt_sim.specs.Tallies.{leads_kind_to, raised, CountsTo, HasCount};
ghost use Rattle.lt_base.specs.Truths.{same_truth};

use lt_arch::{Chan, ChanKind, Shape};
use lt_base::Memory;
use std::alloc::Global;

/// For each node, over the channels of one kind that lead to it: how many there are, how many have delivered at least as
/// many messages as the node has executed instants, and how many have delivered more than that.
#[derive(Drop)]
pub struct Tally {
    pub wanted: Vec<u32>,
    pub fresh: Vec<u32>,
    pub early: Vec<u32>,
}

impl Tally {
    /// Before the first event: each channel is fresh, since no instant was executed.
    pub fn start(alloc: Global, shape: &Shape, data_kind: bool) -> Result<Tally, Memory>
        requires { 2 * (node_count shape.now + chan_count shape.now) < 2 ^ 32 }
        ensures lengths { IfOk result (HasCount (node_count shape.now)) }
        ensures wanted { IfOk result (λ tally. CountsTo shape.now data_kind tally.wanted.items) }
        ensures fresh { IfOk result (λ tally. CountsTo shape.now data_kind tally.fresh.items) }
        ensures early { IfOk result (λ tally. tally.early.items ≡ replicate (node_count shape.now) 0) }
    {
        let wanted = counts_to(alloc, shape, data_kind)?;
        let fresh = counts_to(alloc, shape, data_kind)?;
        let early = none(alloc, shape.nodes.len())?;
        Ok(Tally {
            wanted,
            fresh,
            early,
        })
    }

    /// Whether every channel to the node is fresh.
    pub fn all_fresh(&self, node: u32) -> bool
        requires wanted { node < length self.now.wanted.items }
        requires fresh { node < length self.now.fresh.items }
        ensures { result ≡ (slice_index_or self.now.fresh.items node 0 == slice_index_or self.now.wanted.items node 0) }
    {
        self.fresh[node as usize] == self.wanted[node as usize]
    }

    /// Whether some channel to the node is fresh.
    pub fn any_fresh(&self, node: u32) -> bool
        requires { node < length self.now.fresh.items }
        ensures { result ≡ nat_lt 0 (slice_index_or self.now.fresh.items node 0) }
    {
        0 < self.fresh[node as usize]
    }

    /// With one more, a channel to the node has delivered so many messages.
    pub fn arrive(&mut self, node: u32, delivered: u64, executed: u64)
        requires fresh { node < length self.old.fresh.items }
        requires early { node < length self.old.early.items }
        requires executed { executed < 2 ^ 32 }
        requires fresh_room { delivered ≡ executed → slice_index_or self.old.fresh.items node 0 < 2 ^ 32 - 1 }
        requires early_room { delivered ≡ executed + 1 → slice_index_or self.old.early.items node 0 < 2 ^ 32 - 1 }
        ensures wanted { self.new.wanted.items ≡ self.old.wanted.items }
        ensures fresh { self.new.fresh.items ≡ raised (delivered == executed) self.old.fresh.items node }
        ensures early { self.new.early.items ≡ raised (delivered == executed + 1) self.old.early.items node }
    {
        let n = node as usize;
        if delivered == executed {
            self.fresh[n] += 1;
        }
        if delivered == executed + 1 {
            self.early[n] += 1;
        }
    }

    /// The node has executed one more instant, so that only the early channels are fresh.
    pub fn execute(&mut self, node: u32)
        requires fresh { node < length self.old.fresh.items }
        requires early { node < length self.old.early.items }
        ensures wanted { self.new.wanted.items ≡ self.old.wanted.items }
        ensures fresh { self.new.fresh.items ≡ slice_set self.old.fresh.items node (slice_index_or self.old.early.items node 0) }
        ensures early { self.new.early.items ≡ slice_set self.old.early.items node 0 }
    {
        let n = node as usize;
        self.fresh[n] = self.early[n];
        self.early[n] = 0;
    }
}

/// So many zeros.
pub fn none(alloc: Global, count: usize) -> Result<Vec<u32>, Memory>
    ensures { IfOk result (λ counts. counts.items ≡ replicate count 0) }
{
    Ok(vec![in alloc; 0u32; count]?)
}

// Whether a channel carries data, or acknowledgements.
fn carries(kind: ChanKind, data_kind: bool) -> bool
    ensures { result ≡ same_truth data_kind (is_data kind) }
{
    match kind {
        ChanKind::Data => data_kind,
        ChanKind::Ack => !data_kind,
    }
}

fn is_incoming(channel: Chan, node: u32, data_kind: bool) -> bool
    ensures { result ≡ ((channel.to == node) && same_truth data_kind (is_data channel.kind)) }
{
    channel.to == node && carries(channel.kind, data_kind)
}

/// Whether a channel leads from a node and is of a kind.
pub fn is_outgoing(channel: Chan, node: u32, data_kind: bool) -> bool
    ensures { result ≡ ((channel.from == node) && same_truth data_kind (is_data channel.kind)) }
{
    channel.from == node && carries(channel.kind, data_kind)
}

// How many channels of a kind lead to a node.
#[tactic(auto, using(crate::proofs::Counting::how_many_yes, crate::proofs::Counting::how_many_no))]
fn count_to(channels: &[Chan], node: u32, data_kind: bool) -> u32
    requires { length channels.now < 2 ^ 32 }
    ensures { result ≡ how_many (leads_kind_to channels.now data_kind node) (length channels.now) }
{
    let mut count = 0;
    for channel in channels {
        let has = is_incoming(*channel, node, data_kind);
        if has {
            count += 1;
        }
    }
    count
}

fn counts_to(alloc: Global, shape: &Shape, data_kind: bool) -> Result<Vec<u32>, Memory>
    requires { 2 * (node_count shape.now + chan_count shape.now) < 2 ^ 32 }
    ensures length { IfOk result (λ counts. length counts.items ≡ node_count shape.now) }
    ensures each { IfOk result (λ counts. CountsTo shape.now data_kind counts.items) }
{
    let channels = shape.channels.as_slice();
    let mut counts = Vec::new(alloc);
    for node in 0..shape.nodes.len() {
        counts.push(count_to(channels, node as u32, data_kind))?;
    }
    Ok(counts)
}
