// Nodes by their names.
ghost use Rattle.std.specs.Prelude.{◌≡◌, ◌<◌, IfSome, bytes_eq, length, position};

use lt_base::{List, Name};

/// The number of the node of this name, if there is one.
#[tactic(auto, using(crate::proofs::Numbered::number_within))]
pub(crate) fn number_of(nodes: &List<Name>, name: &str) -> Option<usize>
    ensures found { result ≡ position (λ node. bytes_eq node name.now) nodes.now }
    ensures within { IfSome result (λ n. n < length nodes.now) }
{
    nodes.iter().position(|node| is(node, name))
}

fn is(node: &Name, name: &str) -> bool
    ensures { result ≡ bytes_eq node.now name.now }
{
    node.as_str() == name
}
