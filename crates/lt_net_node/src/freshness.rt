// Which inboxes of a node are fresh.
ghost use Rattle.std.specs.Prelude.{◌≡◌, length};
ghost use Rattle.lt_arch.specs.Deeds.{all_below, some_below};
ghost use Rattle.lt_net_node.specs.Freshness.{fresh_or_other, fresh_one, TakenUpTo};
ghost use Rattle.lt_link.specs.Ports.{is_to, HasPorts};

use lt_arch::Chan;
use lt_base::List;
use lt_link::{Inbox, Ports, incoming};

/// Whether each inbox of a node is fresh, of data channels or of the others.
pub fn all_fresh(
    channels: &[Chan],
    ports: &List<Ports>,
    inboxes: &[Inbox],
    node: u32,
    kind: bool,
) -> bool
    requires inboxes { length inboxes.now ≡ length channels.now }
    requires ports { HasPorts channels.now node ports.now }
    ensures { result ≡ all_below (fresh_or_other channels.now inboxes.now node kind) (length channels.now) }
{
    let numbers = incoming(channels, ports, node, kind);
    for number in numbers {
        let c = *number as usize;
        if !inboxes[c].fresh() {
            return false;
        }
    }
    true
}

/// Whether some is.
pub fn any_fresh(
    channels: &[Chan],
    ports: &List<Ports>,
    inboxes: &[Inbox],
    node: u32,
    kind: bool,
) -> bool
    requires inboxes { length inboxes.now ≡ length channels.now }
    requires ports { HasPorts channels.now node ports.now }
    ensures { result ≡ some_below (fresh_one channels.now inboxes.now node kind) (length channels.now) }
{
    let numbers = incoming(channels, ports, node, kind);
    for number in numbers {
        let c = *number as usize;
        if inboxes[c].fresh() {
            return true;
        }
    }
    false
}

/// Reads each inbox of a node, of data channels or of the others.
pub fn take_all(
    channels: &[Chan],
    ports: &List<Ports>,
    inboxes: &mut Vec<Inbox>,
    node: u32,
    kind: bool,
)
    requires inboxes { length inboxes.old.items ≡ length channels.now }
    requires ports { HasPorts channels.now node ports.now }
    ensures { TakenUpTo (length channels.now) (is_to channels.now node kind) inboxes.old.items inboxes.new.items }
{
    let numbers = incoming(channels, ports, node, kind);
    for number in numbers {
        let c = *number as usize;
        inboxes[c].take();
    }
}
