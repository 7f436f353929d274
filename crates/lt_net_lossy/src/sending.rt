// The messages that a node sends again.
ghost use Rattle.std.specs.Prelude.{◌≡◌, ◌<◌, ◌≤◌, ◌-◌, ℕ, true, IsTrue, length, OnOk, IsErrOf};
ghost use Rattle.lt_arch.specs.declared.limits.TheConstants.{GREATEST_TIME};
ghost use Rattle.lt_io.specs.declared.fault.LinkErr.TheVariants.{Memory as NoMemory};
ghost use Rattle.lt_io.specs.Counts.{MayFail, LinkCounted};
ghost use Rattle.lt_io.specs.FabricState.{KeepsFabric};
ghost use Rattle.lt_link.specs.Bits.{bit_of};
ghost use Rattle.lt_lossy.specs.Times.{queue_at};
ghost use Rattle.lt_lossy.specs.Window.{room};
ghost use Rattle.lt_link.specs.Ports.{HasPorts, is_from};
ghost use Rattle.lt_net.specs.Sends.{PayloadsFit};
ghost use Rattle.lt_net_lossy.specs.Sends.{SendsPosted, SendsNumber, numbered_from, IsBehind};

use crate::posted::Posted;
use lt_arch::Chan;
use lt_base::{List, Steps};
use lt_io::{Fabric, LinkErr};
use lt_link::{Ports, outgoing};
use lt_lossy::LossyWatch;
use std::sync::ledger::Ledger;

// The bit of a message, by its number.
fn bit_of(number: u32) -> bool
    ensures { result ≡ bit_of number }
{
    number % 2 == 1
}

// Sends the payload on each channel from a node, on data channels or on the others, and tells the watch.
#[tactic(auto, using(lt_net::proofs::SendLoop::keeps_trans))]
fn send_all<W: Fabric, L: Ledger>(
    channels: &[Chan],
    ports: &List<Ports>,
    posted: &[Posted],
    node: u32,
    kind: bool,
    bit: bool,
    at: u64,
    watch: &mut LossyWatch,
    fabric: &mut W,
    steps: &mut Steps<L>,
) -> Result<(), LinkErr>
    requires count { MayFail (W.state fabric.old).faults }
    requires ports { HasPorts channels.now node ports.now }
    requires posted { length posted.now ≡ length channels.now }
    requires queues { length watch.old.queues ≡ length channels.now }
    requires kinds { length (W.state fabric.old).kinds ≡ length channels.now }
    requires types { PayloadsFit channels.now node kind posted.now (W.state fabric.old) }
    requires space { (c : ℕ) → c < length channels.now → is_from channels.now node kind c ≡ true → length (queue_at watch.old c) < room }
    requires time { at ≤ GREATEST_TIME }
    ensures sent { OnOk result (SendsPosted channels.now node kind posted.now bit at (W.state fabric.old) (W.state fabric.new) watch.old watch.new) }
    ensures watch { watch.new ≡ record watch.old { queues = watch.new.queues } }
    ensures length { length watch.new.queues ≡ length watch.old.queues }
    ensures cause { LinkCounted (W.state fabric.old).faults (W.state fabric.new).faults result }
    ensures keeps { KeepsFabric (W.state fabric.old) (W.state fabric.new) }
    ensures sound { IsTrue (W.state fabric.old).sound → (W.state fabric.new).faults ≡ (W.state fabric.old).faults }
    ensures prompt { IsTrue (W.state fabric.old).prompt → IsErrOf result NoMemory → IsBehind channels.now node kind (W.state fabric.old) }
{
    let numbers = outgoing(channels, ports, node, kind);
    for i in 0..numbers.len() {
        let ch = numbers[i];
        fabric.send(ch, posted[ch as usize].as_slice(), bit)?;
        watch.sent(ch, at, steps);
    }
    Ok(())
}

/// Sends the message of a number on each channel from a node, on data channels or on the others, and tells the watch. A node that
/// counts nothing yet sends nothing.
pub fn send_number<W: Fabric, L: Ledger>(
    channels: &[Chan],
    ports: &List<Ports>,
    posted: &[Posted],
    node: u32,
    kind: bool,
    number: u32,
    at: u64,
    watch: &mut LossyWatch,
    fabric: &mut W,
    steps: &mut Steps<L>,
) -> Result<(), LinkErr>
    requires count { MayFail (W.state fabric.old).faults }
    requires ports { HasPorts channels.now node ports.now }
    requires posted { length posted.now ≡ length channels.now }
    requires queues { length watch.old.queues ≡ length channels.now }
    requires kinds { length (W.state fabric.old).kinds ≡ length channels.now }
    requires types { PayloadsFit channels.now node kind posted.now (W.state fabric.old) }
    requires space { (c : ℕ) → c < length channels.now → numbered_from channels.now node kind number c ≡ true → length (queue_at watch.old c) < room }
    requires time { at ≤ GREATEST_TIME }
    ensures sent { OnOk result (SendsNumber channels.now node kind posted.now number at (W.state fabric.old) (W.state fabric.new) watch.old watch.new) }
    ensures watch { watch.new ≡ record watch.old { queues = watch.new.queues } }
    ensures length { length watch.new.queues ≡ length watch.old.queues }
    ensures cause { LinkCounted (W.state fabric.old).faults (W.state fabric.new).faults result }
    ensures keeps { KeepsFabric (W.state fabric.old) (W.state fabric.new) }
    ensures sound { IsTrue (W.state fabric.old).sound → (W.state fabric.new).faults ≡ (W.state fabric.old).faults }
    ensures prompt { IsTrue (W.state fabric.old).prompt → IsErrOf result NoMemory → IsBehind channels.now node kind (W.state fabric.old) }
{
    if number == 0 {
        return Ok(());
    }
    let bit = bit_of(number);
    send_all(
        channels, ports, posted, node, kind, bit, at, watch, fabric, steps,
    )
}
