//! What holds of `print`, with `parse`; nothing here is run.
ghost use Rattle.lt_syntax.specs.Reads.{FindsTree};
ghost use Rattle.lt_print.specs.Laws.{CanonicalSpells};

use crate::printer::print;
use lt_base::Or;
use lt_syntax::{SyntaxFault, Tree, parse};
use std::alloc::Global;

/// The canonical text of a tree that some bytes spell spells that tree.
pub fn canonical_spells()
    ensures { CanonicalSpells }
{}

/// What a tree is printed as is parsed as that tree again, unless memory runs out.
pub fn parse_of_print(alloc: Global, t: &Tree) -> Result<Tree, Or<SyntaxFault>>
    ensures { FindsTree t.now result }
{
    let text = print(alloc, t)?;
    parse(alloc, &text)
}
