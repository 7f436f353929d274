// A fabric that changes what it carries, for tests.
ghost use Rattle.std.specs.Prelude.{◌≡◌, ◌≢◌, ◌<◌, ℕ, [], length, map, true, false, IfOk, OnOk, OnErr, slice_index_or, vec_len};
ghost use Rattle.lt_io.specs.Counts.{MayFail};
ghost use Rattle.lt_io.specs.ChannelState.{IsOfKind};
ghost use Rattle.lt_io.specs.FabricState.{Grows};
ghost use Rattle.lt_io.specs.FlipState.{silent, flip_at, flip_kinds, transit_at, sent_at, delivered_at, TakesFlipped};

use crate::flip_channel::FlipChannel;
use crate::openings::Openings;
use crate::{Fabric, LinkErr, Message};
use lt_base::{List, Memory, Ty, Value};
use std::alloc::Global;

/// Channels that store all messages sent and delivered, and that add 1, which wraps, to each int
/// and negate each bool on the way. No call on them fails.
#[derive(Drop)]
pub struct FlipFabric {
    alloc: Global,
    channels: Vec<FlipChannel>,
    openings: Openings,
}

impl FlipFabric {
    ghost use Rattle.lt_io.specs.FlipFabric.{flip_fabric_state};

    /// An empty fabric, which grows by this allocator. It takes no memory.
    pub fn new(alloc: Global) -> Self
        ensures faithful { (flip_fabric_state result).faithful ≡ false }
        ensures sound { (flip_fabric_state result).sound ≡ true }
        ensures told { (flip_fabric_state result).told ≡ true }
        ensures empty { (flip_fabric_state result).kinds ≡ [] }
        ensures faults { (flip_fabric_state result).faults ≡ 0 }
    {
        FlipFabric {
            alloc,
            channels: Vec::new(alloc),
            openings: Openings::new(),
        }
    }
}

impl Fabric for FlipFabric {
    ghost use Rattle.std.specs.Prelude.{◌≡◌, ◌≢◌, ◌<◌, ◌-◌, ◌^◌, [], length, map, OnOk};
    ghost use Rattle.lt_io.specs.FabricState.{DeliversOldest, channel_kind};
    ghost use Rattle.lt_io.specs.FlipState.{Flips};
    ghost use Rattle.lt_io.specs.FlipFabric.{flip_fabric_state};

    ghost state = { flip_fabric_state };

    #[tactic(auto, using(crate::proofs::Flips::kinds_of_silent, crate::proofs::Flips::at_silent))]
    fn open(&mut self, kinds: &[List<Ty>]) -> Result<(), LinkErr> {
        self.openings = self.openings.more();
        self.channels = channels_of(self.alloc, kinds)?;
        Ok(())
    }

    fn send(&mut self, ch: u32, payload: &[Value], bit: bool) -> Result<(), LinkErr> {
        let payload = List::from_slice(self.alloc, payload)?;
        push_at(&mut self.channels, ch as usize, Message { payload, bit })?;
        Ok(())
    }

    fn deliver(&mut self, ch: u32, into: &mut [Value]) -> Result<bool, LinkErr>
        requires count { MayFail (flip_fabric_state self.old).faults }
        requires channel { ch < length (flip_fabric_state self.old).kinds }
        requires some { (flip_fabric_state self.old).transit ch ≢ [] }
        requires room { length into.old ≡ length (channel_kind (flip_fabric_state self.old) ch) }
        ensures delivers { DeliversOldest (flip_fabric_state self.old) (flip_fabric_state self.new) ch into.new result }
        ensures flips { OnOk result (Flips ((flip_fabric_state self.old).transit ch) ((flip_fabric_state self.new).transit ch) into.new) }
    {
        let bit = take_at(&mut self.channels, ch as usize, self.alloc, into)?;
        Ok(bit)
    }
}

/// A channel for each entry, on which nothing was sent.
fn channels_of(alloc: Global, kinds: &[List<Ty>]) -> Result<Vec<FlipChannel>, Memory>
    ensures { IfOk result (λ channels. channels.items ≡ map silent kinds.now) }
{
    let mut channels = Vec::with_capacity(alloc, kinds.len())?;
    for kind in kinds {
        channels.push(FlipChannel::new(alloc, kind)?)?;
    }
    Ok(channels)
}

#[tactic(auto, using(crate::proofs::Flips::kinds_same))]
fn push_at(channels: &mut Vec<FlipChannel>, ch: usize, message: Message) -> Result<(), Memory>
    requires channel { ch < vec_len channels.old }
    requires types { IsOfKind (slice_index_or (flip_kinds channels.old.items) ch []) message }
    ensures kinds { flip_kinds channels.new.items ≡ flip_kinds channels.old.items }
    ensures transit { OnOk result (Grows (transit_at channels.old.items) (transit_at channels.new.items) ch message) }
    ensures sent { OnOk result (Grows (sent_at channels.old.items) (sent_at channels.new.items) ch message) }
    ensures delivered { (c : ℕ) → delivered_at channels.new.items c ≡ delivered_at channels.old.items c }
    ensures err { OnErr result ((c : ℕ) → flip_at channels.new.items c ≡ flip_at channels.old.items c) }
{
    let channel = &mut channels[ch];
    channel.push(message)
}

#[tactic(auto, using(crate::proofs::Flips::kinds_same))]
fn take_at(
    channels: &mut Vec<FlipChannel>,
    ch: usize,
    alloc: Global,
    into: &mut [Value],
) -> Result<bool, Memory>
    requires channel { ch < vec_len channels.old }
    requires some { transit_at channels.old.items ch ≢ [] }
    requires room { length into.old ≡ length (slice_index_or (flip_kinds channels.old.items) ch []) }
    ensures kinds { flip_kinds channels.new.items ≡ flip_kinds channels.old.items }
    ensures ok { IfOk result (λ bit. TakesFlipped (flip_at channels.old.items ch) (flip_at channels.new.items ch) (record { payload = into.new; bit = bit })) }
    ensures sent { (c : ℕ) → sent_at channels.new.items c ≡ sent_at channels.old.items c }
    ensures elsewhere { (c : ℕ) → c ≢ ch → flip_at channels.new.items c ≡ flip_at channels.old.items c }
    ensures err { OnErr result ((c : ℕ) → flip_at channels.new.items c ≡ flip_at channels.old.items c) }
{
    let channel = &mut channels[ch];
    channel.take(alloc, into)
}
