// The tree of a program, and the reading of one.
ghost use Rattle.std.specs.Prelude.{◌≡◌, IfOk, List};
ghost use Rattle.lt_base.specs.Limits.{greatest_height};
ghost use Rattle.lt_syntax.specs.declared.tree.NodeText.{NodeText as OneNode};
ghost use Rattle.lt_syntax.specs.Program.{Spells, IsSpelled};
ghost use Rattle.lt_syntax.specs.Reads.{AnswersSyntax, FindsTree};

use crate::fault::SyntaxFault;
use crate::read::read;
use crate::tree::NodeText;
use lt_base::{List, Memory, Or};
use std::alloc::Global;
use std::marker::Model;

/// The tree of a program. Some text spells it, with every expression at most 200 high.
#[derive(Drop)]
pub struct Tree {
    pub nodes: List<NodeText>,
}

impl Model for Tree {
    ghost use Rattle.std.specs.Prelude.{List};
    ghost use Rattle.lt_syntax.specs.declared.tree.NodeText.{NodeText};

    ghost Value = { List NodeText };

    ghost use Rattle.std.specs.Coded.{coded_list};
    ghost use Rattle.lt_syntax.specs.contracts.tree.NodeText.{the_row};

    ghost coded = { coded_list the_row.coded };

    ghost use Rattle.lt_syntax.specs.Program.{IsSpelled};

    ghost view = { λ t. t.nodes };

    ghost invariant = { λ t. IsSpelled t.nodes };
}

impl Tree {
    /// What the type keeps, for callers.
    pub fn invariant_holds(&self)
        ensures { IsSpelled self.now }
    {
        let _ = &self.nodes;
    }

    /// An equal tree.
    pub fn copy(&self) -> Result<Tree, Memory>
        ensures { IfOk result (λ copy. copy ≡ self.now) }
    {
        Ok(Tree {
            nodes: self.nodes.copy()?,
        })
    }
}

/// The tree that the bytes spell, or the first offending place.
pub fn parse(alloc: Global, bytes: &[u8]) -> Result<Tree, Or<SyntaxFault>>
    // A tree is spelled by the bytes, and a fault is the first one.
    ensures exact { AnswersSyntax greatest_height bytes.now result }
    // What is spelled is found, unless memory runs out.
    ensures only { (t : List OneNode) → Spells greatest_height bytes.now t → FindsTree t result }
{
    match read(alloc, bytes) {
        Ok(nodes) => Ok(Tree { nodes }),
        Err(error) => Err(error),
    }
}
