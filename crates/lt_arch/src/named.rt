// A node of a setup.
ghost use Rattle.std.specs.Prelude.{◌≡◌, IfOk};

use lt_base::{Duplicate, List, Memory, Name};

/// A node, by its name, and the variables that are on it, as the setup lists them.
#[derive(Drop)]
pub struct NamedNode {
    pub name: Name,
    pub vars: List<Name>,
}

impl NamedNode {
    /// An equal node.
    pub fn copy(&self) -> Result<NamedNode, Memory>
        ensures { IfOk result (λ copy. copy ≡ self.now) }
    {
        Ok(NamedNode {
            name: self.name.copy()?,
            vars: self.vars.copy()?,
        })
    }
}

impl Duplicate for NamedNode {
    fn duplicate(&self) -> Result<NamedNode, Memory> {
        self.copy()
    }
}
