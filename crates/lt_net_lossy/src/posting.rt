// What is sent again from now on.
ghost use Rattle.std.specs.Prelude.{◌≡◌, ◌<◌, ℕ, true, [], length, slice_index_or, IfOk};
ghost use Rattle.lt_link.specs.Ports.{HasPorts, is_from};
ghost use Rattle.lt_net_lossy.specs.Changes.{PostedUpTo};

use crate::posted::Posted;
use lt_arch::Chan;
use lt_base::{List, Memory};
use lt_link::{Ports, outgoing};
use lt_net_bench::Payload;
use std::alloc::Global;

/// Puts the newest payload of each data channel from a node in the place of the one that was sent.
pub fn post_all(
    channels: &[Chan],
    ports: &List<Ports>,
    buffers: &[Payload],
    posted: &mut Vec<Posted>,
    node: u32,
)
    requires ports { HasPorts channels.now node ports.now }
    requires buffers { length buffers.now ≡ length channels.now }
    requires posted { length posted.old.items ≡ length channels.now }
    requires sizes { (c : ℕ) → c < length channels.now → length (slice_index_or buffers.now c []) ≡ length (slice_index_or posted.old.items c []) }
    ensures { PostedUpTo (length channels.now) (is_from channels.now node true) buffers.now posted.old.items posted.new.items }
{
    let numbers = outgoing(channels, ports, node, true);
    for i in 0..numbers.len() {
        let c = numbers[i] as usize;
        posted[c].replace(buffers[c].as_slice());
    }
}

/// A payload to send again for each channel.
pub fn posted_of(alloc: Global, buffers: &[Payload]) -> Result<Vec<Posted>, Memory>
    ensures { IfOk result (λ posted. posted.items ≡ buffers.now) }
{
    let mut posted = Vec::with_capacity(alloc, buffers.len())?;
    for buffer in buffers {
        let values = List::from_slice(alloc, buffer.as_slice())?;
        posted.push(Posted::of(values.into_vec()))?;
    }
    Ok(posted)
}
