// Placements.
ghost use Rattle.std.specs.Prelude.{◌≡◌, ◌∷◌, [], codes, length, IfOk};
ghost use Rattle.lt_arch.specs.NodeNames.{names_of};
ghost use Rattle.lt_arch.specs.Placement.{node_names};

use crate::{NamedNode, NamedNodes};
use lt_base::{List, Memory, Name};
use std::alloc::Global;

/// Which nodes there are and what is on each. Nodes are numbered in byte order of their names.
#[derive(Drop)]
pub enum Placement {
    /// Everything is on one node, `all`.
    All,
    Named(NamedNodes),
}

impl Placement {
    /// The number of nodes.
    pub fn node_count(&self) -> usize
        ensures { result ≡ length (node_names self.now) }
    {
        match self {
            Placement::All => 1,
            Placement::Named(named) => named.nodes.len(),
        }
    }

    /// The names of the nodes, by their numbers.
    pub fn names(&self, alloc: Global) -> Result<List<Name>, Memory>
        ensures { IfOk result (λ names. names ≡ node_names self.now) }
    {
        match self {
            Placement::All => only_name(alloc),
            Placement::Named(named) => names_of(alloc, &named.nodes),
        }
    }

    /// An equal placement.
    pub fn copy(&self) -> Result<Placement, Memory>
        ensures { IfOk result (λ copy. copy ≡ self.now) }
    {
        match self {
            Placement::All => Ok(Placement::All),
            Placement::Named(named) => Ok(Placement::Named(named.copy()?)),
        }
    }
}

fn only_name(alloc: Global) -> Result<List<Name>, Memory>
    ensures { IfOk result (λ names. names ≡ codes "all" ∷ []) }
{
    let mut names = List::new(alloc);
    names.push(Name::from_str(alloc, "all")?)?;
    Ok(names)
}

fn names_of(alloc: Global, nodes: &[NamedNode]) -> Result<List<Name>, Memory>
    ensures { IfOk result (λ names. names ≡ names_of nodes.now) }
{
    let mut names = List::new(alloc);
    for node in nodes {
        names.push(node.name.copy()?)?;
    }
    Ok(names)
}
