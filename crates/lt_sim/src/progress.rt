// How far the nodes and the channels are.
ghost use Rattle.std.specs.Prelude.{◌≡◌, ◌<◌, ◌+◌, ◌-◌, ◌*◌, ◌^◌, ℕ, IfOk, replicate, slice_index_or};
ghost use Rattle.lt_arch.specs.declared.shape.Shape.{Shape as OfShape};
ghost use Rattle.lt_arch.specs.Readers.{chan_count, node_count};
ghost use Rattle.lt_arch.specs.Step.{updated};
ghost use Rattle.lt_sim.specs.Progress.{ProgressIsAt, CanArrive, HasNode, IsNoneAhead};

use crate::tally::{Tally, none};
use lt_arch::{ChanKind, Shape};
use lt_base::Memory;
use std::alloc::Global;

/// How many instants each node has executed and how many messages each channel has delivered, and how many channels to
/// each node are fresh.
#[derive(Drop)]
pub struct Progress {
    pub executed: Vec<u32>,
    pub delivered: Vec<u64>,
    pub messages: Tally,
    pub acks: Tally,
}

impl Progress {
    /// Before the first event.
    pub fn start(alloc: Global, shape: &Shape) -> Result<Progress, Memory>
        requires { 2 * (node_count shape.now + chan_count shape.now) < 2 ^ 32 }
        ensures { IfOk result (λ progress. ProgressIsAt progress shape.now (λ n. 0) (λ c. 0)) }
    {
        let executed = none(alloc, shape.nodes.len())?;
        let delivered = none_delivered(alloc, shape.channels.len())?;
        Ok(Progress {
            executed,
            delivered,
            messages: Tally::start(alloc, shape, true)?,
            acks: Tally::start(alloc, shape, false)?,
        })
    }

    /// The channel has delivered one message more.
    pub fn arrive(&mut self, shape: &Shape, ch: u32)
        requires { CanArrive self.old shape.now ch }
        ensures { (e d : ℕ → ℕ) → ProgressIsAt self.old shape.now e d → ProgressIsAt self.new shape.now e (updated d ch (d ch + 1)) }
    {
        let c = ch as usize;
        let channel = shape.channels[c];
        let executed = self.executed[channel.to as usize] as u64;
        let delivered = self.delivered[c] + 1;
        self.delivered[c] = delivered;
        match channel.kind {
            ChanKind::Data => self.messages.arrive(channel.to, delivered, executed),
            ChanKind::Ack => self.acks.arrive(channel.to, delivered, executed),
        }
    }

    /// The node has executed one instant more.
    pub fn execute(&mut self, node: u32)
        requires node { HasNode self.old node }
        requires room { slice_index_or self.old.executed.items node 0 < 2 ^ 32 - 1 }
        ensures { (s : OfShape) (e d : ℕ → ℕ) → ProgressIsAt self.old s e d → node < node_count s → IsNoneAhead s e d node
            → ProgressIsAt self.new s (updated e node (e node + 1)) d }
    {
        self.executed[node as usize] += 1;
        self.messages.execute(node);
        self.acks.execute(node);
    }
}

fn none_delivered(alloc: Global, count: usize) -> Result<Vec<u64>, Memory>
    ensures { IfOk result (λ counts. counts.items ≡ replicate count 0) }
{
    Ok(vec![in alloc; 0u64; count]?)
}
