// Programs that passed all checks, with their flat forms.
ghost use Rattle.std.specs.Prelude.{◌≡◌};
ghost use Rattle.lt_front.specs.Checked.{IsChecked, examined_part};

use crate::Examined;
use lt_base::Program;
use lt_norm::Flat;
use lt_syntax::Tree;
use std::marker::Model;

/// A program that passed all checks, beside the tree of its text and its flat form.
#[derive(Drop)]
pub struct Checked {
    pub tree: Tree,
    pub program: Program,
    pub flat: Flat,
}

impl Model for Checked {
    ghost use Rattle.lt_front.specs.Checked.{CheckedText, coded_checked, IsChecked};

    ghost Value = { CheckedText };

    ghost coded = { coded_checked };

    ghost view = { λ c. record { tree = c.tree; program = c.program; flat = c.flat } };

    ghost invariant = { λ c. IsChecked (record { tree = c.tree; program = c.program; flat = c.flat }) };
}

impl Checked {
    /// What the type keeps, for callers.
    pub fn invariant_holds(&self)
        ensures { IsChecked self.now }
    {
        let _ = &self.tree;
    }

    /// The same program and tree, without the flat form.
    pub fn into_examined(self) -> Examined
        ensures { result ≡ examined_part self }
    {
        Examined {
            tree: self.tree,
            program: self.program,
        }
    }
}
