// What a node hears when it is activated.
ghost use Rattle.std.specs.Prelude.{◌≡◌, ◌<◌, ◌&&◌, ◌==◌, length};
ghost use Rattle.lt_base.specs.Truths.{same_truth};
ghost use Rattle.lt_arch.specs.Readers.{chan_count, chan_of, is_data};
ghost use Rattle.lt_lossy_audit.specs.Nodes.{hears_all};

use crate::link::Link;
use lt_arch::{Chan, ChanKind, Shape};

/// The channel of this number.
#[tactic(auto, unfolding(lt_arch::specs::Readers::chan_of))]
pub fn chan_at(shape: &Shape, c: usize) -> Chan
    requires { c < chan_count shape.now }
    ensures { result ≡ chan_of shape.now c }
{
    shape.channels[c]
}

// Whether a channel carries data, or acknowledgements.
fn carries(kind: ChanKind, data_kind: bool) -> bool
    ensures { result ≡ same_truth data_kind (is_data kind) }
{
    match kind {
        ChanKind::Data => data_kind,
        ChanKind::Ack => !data_kind,
    }
}

fn is_incoming(channel: Chan, node: u32, data_kind: bool) -> bool
    ensures { result ≡ ((channel.to == node) && same_truth data_kind (is_data channel.kind)) }
{
    channel.to == node && carries(channel.kind, data_kind)
}

/// Whether each channel to a node, of data channels or of the others, has delivered a message of this number or a newer one.
pub fn all_heard(shape: &Shape, links: &Vec<Link>, node: u32, number: u32, data_kind: bool) -> bool
    requires { length links.now.items ≡ chan_count shape.now }
    ensures { result ≡ hears_all shape.now links.now.items node number data_kind (chan_count shape.now) }
{
    let mut all = true;
    for c in 0..shape.channels.len() {
        let asked = is_incoming(chan_at(shape, c), node, data_kind);
        let heard = number <= links[c].newest();
        all = (!asked || heard) && all;
    }
    all
}
