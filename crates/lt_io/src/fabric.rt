// Channels that carry messages in order.
ghost use Rattle.std.specs.Prelude.{◌≡◌, ◌≢◌, ◌<◌, ◌-◌, ◌^◌, [], length, map};
ghost use Rattle.lt_io.specs.Counts.{MayFail};
ghost use Rattle.lt_base.specs.Value.{ty_of};
ghost use Rattle.lt_io.specs.FabricState.{FabricState, OpensChannels, SendsMessage, DeliversOldest, channel_kind};

use crate::LinkErr;
use lt_base::{List, Ty, Value};

/// Channels between nodes, numbered from 0, each of which carries messages in order. A call that
/// answers an error leaves the channels and all their messages as they were.
pub trait Fabric {
    ghost state: { Self → FabricState };

    /// Makes one channel for each entry, with payloads of those types.
    fn open(&mut self, kinds: &[List<Ty>]) -> Result<(), LinkErr>
        requires count { MayFail (state self.old).faults }
        requires empty { (state self.old).kinds ≡ [] }
        ensures { OpensChannels (state self.old) (state self.new) kinds.now result };

    /// Puts a message behind those in transit.
    fn send(&mut self, ch: u32, payload: &[Value], bit: bool) -> Result<(), LinkErr>
        requires count { MayFail (state self.old).faults }
        requires channel { ch < length (state self.old).kinds }
        requires types { map ty_of payload.now ≡ channel_kind (state self.old) ch }
        ensures { SendsMessage (state self.old) (state self.new) ch (record { payload = payload.now; bit = bit }) result };

    /// Takes the oldest message in transit, and answers its bit. What `into` holds after an error is
    /// not said.
    fn deliver(&mut self, ch: u32, into: &mut [Value]) -> Result<bool, LinkErr>
        requires count { MayFail (state self.old).faults }
        requires channel { ch < length (state self.old).kinds }
        requires some { (state self.old).transit ch ≢ [] }
        requires room { length into.old ≡ length (channel_kind (state self.old) ch) }
        ensures { DeliversOldest (state self.old) (state self.new) ch into.new result };
}
