// A delivery, and a loss.
ghost use Rattle.std.specs.Prelude.{◌≡◌, ◌≢◌, ◌<◌, ◌≤◌, ◌-◌, [], IsTrue, IsErrOf, length, map, OnOk, OnErr, slice_index_or};
ghost use Rattle.lt_base.specs.Value.{ty_of};
ghost use Rattle.lt_io.specs.declared.fault.LinkErr.TheVariants.{Memory as NoMemory};
ghost use Rattle.lt_io.specs.Counts.{MayFail, LinkCounted};
ghost use Rattle.lt_io.specs.FabricState.{SameLists, KeepsFabric, channel_kind};
ghost use Rattle.lt_link.specs.Inbox.{no_inbox};
ghost use Rattle.lt_net_lossy.specs.Receives.{with_latest, ReceivesLossy, DropsOldest};

use lt_base::Value;
use lt_io::{Fabric, LinkErr};
use lt_link::Inbox;

// Puts a message into an inbox, unless it is a copy of one that was read there.
fn put_latest(inbox: &mut Inbox, payload: &[Value], bit: bool)
    requires types { map ty_of payload.now ≡ map ty_of inbox.old.payload }
    ensures { inbox.new ≡ with_latest inbox.old payload.now bit }
{
    if bit != inbox.bit() || inbox.fresh() {
        inbox.put(payload, bit);
    }
}

/// Takes the oldest message of a channel into its inbox, and drops it where it is a copy of one that was read there.
pub fn receive<W: Fabric>(
    inboxes: &mut Vec<Inbox>,
    scratch: &mut Vec<Value>,
    ch: u32,
    fabric: &mut W,
) -> Result<(), LinkErr>
    requires count { MayFail (W.state fabric.old).faults }
    requires channel { ch < length (W.state fabric.old).kinds }
    requires inbox { ch < length inboxes.old.items }
    requires some { (W.state fabric.old).transit ch ≢ [] }
    requires types { map ty_of (slice_index_or inboxes.old.items ch no_inbox).payload ≡ channel_kind (W.state fabric.old) ch }
    requires room { length (channel_kind (W.state fabric.old) ch) ≤ length scratch.old.items }
    ensures keeps { KeepsFabric (W.state fabric.old) (W.state fabric.new) }
    ensures sound { IsTrue (W.state fabric.old).sound → (W.state fabric.new).faults ≡ (W.state fabric.old).faults }
    ensures cause { LinkCounted (W.state fabric.old).faults (W.state fabric.new).faults result }
    ensures prompt { IsTrue (W.state fabric.old).prompt → ¬ IsErrOf result NoMemory }
    ensures ok { OnOk result (ReceivesLossy inboxes.old.items inboxes.new.items (W.state fabric.old) (W.state fabric.new) ch) }
    ensures inboxes { OnErr result (inboxes.new.items ≡ inboxes.old.items) }
    ensures scratch { length scratch.new.items ≡ length scratch.old.items }
    ensures lists { OnErr result (SameLists (W.state fabric.old) (W.state fabric.new)) }
{
    let inbox = &mut inboxes[ch as usize];
    let count = inbox.payload().len();
    let into = &mut scratch[..count];
    let bit = fabric.deliver(ch, into)?;
    put_latest(inbox, into, bit);
    Ok(())
}

/// Takes the oldest message of a channel, whose inbox tells how long it is, and drops it.
pub fn lose<W: Fabric>(
    inboxes: &[Inbox],
    scratch: &mut Vec<Value>,
    ch: u32,
    fabric: &mut W,
) -> Result<(), LinkErr>
    requires count { MayFail (W.state fabric.old).faults }
    requires channel { ch < length (W.state fabric.old).kinds }
    requires inbox { ch < length inboxes.now }
    requires some { (W.state fabric.old).transit ch ≢ [] }
    requires types { map ty_of (slice_index_or inboxes.now ch no_inbox).payload ≡ channel_kind (W.state fabric.old) ch }
    requires room { length (channel_kind (W.state fabric.old) ch) ≤ length scratch.old.items }
    ensures keeps { KeepsFabric (W.state fabric.old) (W.state fabric.new) }
    ensures sound { IsTrue (W.state fabric.old).sound → (W.state fabric.new).faults ≡ (W.state fabric.old).faults }
    ensures cause { LinkCounted (W.state fabric.old).faults (W.state fabric.new).faults result }
    ensures prompt { IsTrue (W.state fabric.old).prompt → ¬ IsErrOf result NoMemory }
    ensures ok { OnOk result (DropsOldest (W.state fabric.old) (W.state fabric.new) ch) }
    ensures scratch { length scratch.new.items ≡ length scratch.old.items }
    ensures lists { OnErr result (SameLists (W.state fabric.old) (W.state fabric.new)) }
{
    let count = inboxes[ch as usize].payload().len();
    let into = &mut scratch[..count];
    let _bit = fabric.deliver(ch, into)?;
    Ok(())
}
