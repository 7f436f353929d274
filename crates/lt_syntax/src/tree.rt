// The tree of a program.
ghost use Rattle.std.specs.Prelude.{◌≡◌, IfOk, Ok};
ghost use Rattle.lt_syntax.specs.Views.{tm_of};

use crate::term::Term;
use lt_base::{Duplicate, List, Memory, Name, Ty};
use std::marker::Model;

/// One declared variable. The clock's pairs go from the base clock inwards.
#[derive(Drop)]
pub struct DeclText {
    pub name: Name,
    pub ty: Ty,
    pub clock: List<(Name, bool)>,
}

/// An equation, which contracts see as its name and the shape of its right side.
#[derive(Drop)]
pub struct EqText {
    pub left: Name,
    pub right: Term,
}

impl Model for EqText {
    ghost use Rattle.std.specs.Prelude.{List, ℕ};
    ghost use Rattle.std.specs.Coded.{coded×, coded_ℕ, coded_list};
    ghost use Rattle.lt_syntax.specs.Tree.{Tm};
    ghost use Rattle.lt_syntax.specs.Codes.{coded_tm};

    ghost Value = { List ℕ × Tm };

    ghost coded = { coded× (coded_list coded_ℕ) coded_tm };

    ghost use Rattle.lt_syntax.specs.Views.{tm_of};

    ghost view = { λ e. (e.left, tm_of e.right) };
}

/// A function of the program.
#[derive(Drop)]
pub struct NodeText {
    pub name: Name,
    pub ins: List<DeclText>,
    pub outs: List<DeclText>,
    pub locals: List<DeclText>,
    pub eqs: List<EqText>,
}

/// Both copies, where both were made.
fn both<A: Drop, B: Drop>(a: Result<A, Memory>, b: Result<B, Memory>) -> Result<(A, B), Memory>
    ensures { IfOk result (λ pair. (a ≡ Ok pair.0) × (b ≡ Ok pair.1)) }
{
    let first = a?;
    Ok((first, b?))
}

impl DeclText {
    pub fn copy(&self) -> Result<DeclText, Memory>
        ensures { IfOk result (λ copy. copy ≡ self.now) }
    {
        let (name, clock) = both(self.name.copy(), self.clock.copy())?;
        Ok(DeclText {
            name,
            ty: self.ty,
            clock,
        })
    }
}

impl EqText {
    pub fn new(left: Name, right: Term) -> EqText
        ensures { result ≡ (left, tm_of right) }
    {
        EqText { left, right }
    }

    /// The left side.
    pub fn left(&self) -> &Name
        ensures { result.now ≡ self.now.0 }
    {
        &self.left
    }

    /// The right side.
    pub fn right(&self) -> &Term
        ensures { tm_of result.now ≡ self.now.1 }
    {
        &self.right
    }

    pub fn copy(&self) -> Result<EqText, Memory>
        ensures { IfOk result (λ copy. copy ≡ self.now) }
    {
        let (left, right) = both(self.left.copy(), self.right.copy())?;
        Ok(EqText { left, right })
    }
}

impl NodeText {
    pub fn copy(&self) -> Result<NodeText, Memory>
        ensures { IfOk result (λ copy. copy ≡ self.now) }
    {
        let inner = both(self.locals.copy(), self.eqs.copy());
        let outer = both(self.ins.copy(), self.outs.copy());
        let (name, lists) = both(self.name.copy(), both(outer, inner))?;
        let ((ins, outs), (locals, eqs)) = lists;
        Ok(NodeText {
            name,
            ins,
            outs,
            locals,
            eqs,
        })
    }
}

impl Duplicate for DeclText {
    fn duplicate(&self) -> Result<DeclText, Memory> {
        self.copy()
    }
}

impl Duplicate for EqText {
    fn duplicate(&self) -> Result<EqText, Memory> {
        self.copy()
    }
}

impl Duplicate for NodeText {
    fn duplicate(&self) -> Result<NodeText, Memory> {
        self.copy()
    }
}
