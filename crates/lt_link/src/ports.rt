// The channels of a node: which lead to it, and which from it.
ghost use Rattle.std.specs.Prelude.{◌≡◌, ◌<◌, ℕ, true, length, slice_index_or};
ghost use Rattle.lt_link.specs.Ports.{is_to, is_from, numbers, HasPorts};

use lt_arch::Chan;
use lt_base::List;

/// The numbers of a node's channels, each list in increasing order: those that lead to the node, and those that lead from it.
#[derive(Drop)]
pub struct Ports {
    pub data_in: List<u32>,
    pub data_out: List<u32>,
    pub acks_in: List<u32>,
    pub acks_out: List<u32>,
}

/// The channels to a node that carry data, or those that carry acknowledgements.
#[tactic(auto, using(crate::proofs::Listed::within_zero, crate::proofs::Listed::passes_zero))]
pub fn incoming<'a>(channels: &[Chan], ports: &'a List<Ports>, node: u32, kind: bool) -> &'a [u32]
    requires { HasPorts channels.now node ports.now }
    ensures are { result.now ≡ numbers (is_to channels.now node kind) (length channels.now) }
    ensures within { (i : ℕ) → i < length result.now → slice_index_or result.now i 0 < length channels.now }
    ensures on { (i : ℕ) → i < length result.now → is_to channels.now node kind (slice_index_or result.now i 0) ≡ true }
{
    let _ = channels;
    let here = &ports[node as usize];
    if kind { &here.data_in } else { &here.acks_in }
}

/// The channels from a node that carry data, or those that carry acknowledgements.
#[tactic(auto, using(crate::proofs::Listed::within_zero, crate::proofs::Listed::passes_zero))]
pub fn outgoing<'a>(channels: &[Chan], ports: &'a List<Ports>, node: u32, kind: bool) -> &'a [u32]
    requires { HasPorts channels.now node ports.now }
    ensures are { result.now ≡ numbers (is_from channels.now node kind) (length channels.now) }
    ensures within { (i : ℕ) → i < length result.now → slice_index_or result.now i 0 < length channels.now }
    ensures on { (i : ℕ) → i < length result.now → is_from channels.now node kind (slice_index_or result.now i 0) ≡ true }
{
    let _ = channels;
    let here = &ports[node as usize];
    if kind { &here.data_out } else { &here.acks_out }
}
