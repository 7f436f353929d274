// An activation asks the node's controller.
ghost use Rattle.std.specs.Prelude.{◌≡◌, ◌<◌, length};
ghost use Rattle.lt_link.specs.Ports.{HasPorts};
ghost use Rattle.lt_net_node.specs.Wakes.{Wakes, bits_of};

use crate::freshness::{all_fresh, any_fresh};
use lt_arch::{Chan, Controller, Deed};
use lt_base::List;
use lt_link::{Inbox, Ports};

/// What the node does, by the bits of its inboxes.
pub fn wake<C: Controller>(
    channels: &[Chan],
    ports: &List<Ports>,
    inboxes: &[Inbox],
    executed: &[u32],
    rows: u32,
    node: u32,
    controllers: &mut Vec<C>,
) -> Deed
    requires inboxes { length inboxes.now ≡ length channels.now }
    requires ports { HasPorts channels.now node ports.now }
    requires node { node < length controllers.old.items }
    requires executed { node < length executed.now }
    ensures { Wakes C.Controller controllers.old.items controllers.new.items node (bits_of channels.now inboxes.now executed.now rows node) result }
{
    let all_in = all_fresh(channels, ports, inboxes, node, true);
    let any_in = any_fresh(channels, ports, inboxes, node, true);
    let all_ack = all_fresh(channels, ports, inboxes, node, false);
    let more = executed[node as usize] < rows;
    controllers[node as usize].wake(all_in, any_in, all_ack, more)
}
