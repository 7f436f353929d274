// A fabric of which one send finds no memory, for tests.
ghost use Rattle.std.specs.Prelude.{◌≡◌, ◌<◌, ◌-◌, ◌^◌, [], true, false};
ghost use Rattle.lt_io.specs.Counts.{MayFail};

use crate::{Fabric, LinkErr, MemFabric};
use lt_base::{List, Ty, Value};
use std::alloc::Global;

/// A fabric in memory whose send of one number, counted from 1, answers want of memory. No call on
/// it fails.
#[derive(Drop)]
pub struct TightFabric {
    fabric: MemFabric,
    at: u64,
    sends: u64,
}

impl TightFabric {
    ghost use Rattle.lt_io.specs.TightFabric.{tight_fabric_state, next_send, tight_at};

    /// An empty fabric, whose send number `at` finds no memory. It takes no memory.
    pub fn new(alloc: Global, at: u64) -> Self
        requires { at < 2 ^ 64 - 1 }
        ensures faithful { (tight_fabric_state result).faithful ≡ true }
        ensures prompt { (tight_fabric_state result).prompt ≡ false }
        ensures sound { (tight_fabric_state result).sound ≡ true }
        ensures told { (tight_fabric_state result).told ≡ false }
        ensures empty { (tight_fabric_state result).kinds ≡ [] }
        ensures faults { (tight_fabric_state result).faults ≡ 0 }
        ensures first { next_send result ≡ 1 }
        ensures at { tight_at result ≡ at }
    {
        TightFabric {
            fabric: MemFabric::new(alloc, List::new(alloc)),
            at,
            sends: 0,
        }
    }
}

impl Fabric for TightFabric {
    ghost use Rattle.std.specs.Prelude.{◌≡◌, ◌≢◌, ◌<◌, ◌-◌, ◌^◌, [], length, map, IsErrOf};
    ghost use Rattle.lt_base.specs.Value.{ty_of};
    ghost use Rattle.lt_io.specs.FabricState.{OpensChannels, SendsMessage, DeliversOldest, channel_kind};
    ghost use Rattle.lt_io.specs.TightFabric.{tight_fabric_state, next_send, tight_at, CountsSend, KeepsSends};

    ghost state = { tight_fabric_state };

    fn open(&mut self, kinds: &[List<Ty>]) -> Result<(), LinkErr>
        requires count { MayFail (tight_fabric_state self.old).faults }
        requires empty { (tight_fabric_state self.old).kinds ≡ [] }
        ensures opens { OpensChannels (tight_fabric_state self.old) (tight_fabric_state self.new) kinds.now result }
        ensures keeps { KeepsSends self.old self.new }
    {
        self.fabric.open(kinds)
    }

    fn send(&mut self, ch: u32, payload: &[Value], bit: bool) -> Result<(), LinkErr>
        requires count { MayFail (tight_fabric_state self.old).faults }
        requires channel { ch < length (tight_fabric_state self.old).kinds }
        requires types { map ty_of payload.now ≡ channel_kind (tight_fabric_state self.old) ch }
        ensures sends { SendsMessage (tight_fabric_state self.old) (tight_fabric_state self.new) ch (record { payload = payload.now; bit = bit }) result }
        ensures tight { next_send self.old ≡ tight_at self.old → IsErrOf result LinkErr.Memory }
        ensures free { next_send self.old ≢ tight_at self.old → (tight_fabric_state self.old).transit ch ≡ [] → ¬ IsErrOf result LinkErr.Memory }
        ensures counts { CountsSend self.old self.new }
    {
        self.sends = self.sends.saturating_add(1);
        if self.sends == self.at {
            return Err(LinkErr::Memory);
        }
        self.fabric.send(ch, payload, bit)
    }

    fn deliver(&mut self, ch: u32, into: &mut [Value]) -> Result<bool, LinkErr>
        requires count { MayFail (tight_fabric_state self.old).faults }
        requires channel { ch < length (tight_fabric_state self.old).kinds }
        requires some { (tight_fabric_state self.old).transit ch ≢ [] }
        requires room { length into.old ≡ length (channel_kind (tight_fabric_state self.old) ch) }
        ensures delivers { DeliversOldest (tight_fabric_state self.old) (tight_fabric_state self.new) ch into.new result }
        ensures keeps { KeepsSends self.old self.new }
    {
        self.fabric.deliver(ch, into)
    }
}
