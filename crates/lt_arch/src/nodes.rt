// The nodes of a setup.
ghost use Rattle.std.specs.Prelude.{◌≡◌, ◌≤◌, length, IfOk};
ghost use Rattle.std.specs.List.{AllPass};
ghost use Rattle.std.specs.List.Sorted.{IsStrictlySortedBy, IsStrictlySortedBy-prop};
ghost use Rattle.lt_arch.specs.Names.{is_identifier};
ghost use Rattle.lt_arch.specs.NodeNames.{names_of, byte_order};

use crate::NamedNode;
use lt_base::{List, Memory};

/// The nodes of a setup, at least one, in byte order of their names, which so differ. A name is an identifier of at
/// most 64 bytes.
#[derive(Drop)]
pub struct NamedNodes {
    pub nodes: List<NamedNode>,
    ghost inhabited: { 1 ≤ length nodes },
    ghost identifiers: { AllPass is_identifier (names_of nodes) },
    ghost ascending: { IsStrictlySortedBy byte_order (names_of nodes) } by { IsStrictlySortedBy-prop byte_order (names_of nodes) },
}

impl NamedNodes {
    /// The same nodes.
    pub fn copy(&self) -> Result<NamedNodes, Memory>
        ensures { IfOk result (λ copy. copy ≡ self.now) }
    {
        Ok(NamedNodes {
            nodes: self.nodes.copy()?,
        })
    }
}
