// Programs that passed all checks.
ghost use Rattle.lt_front.specs.Examined.{IsExamined};

use lt_base::Program;
use lt_syntax::Tree;
use std::marker::Model;

/// A program that passed all checks, beside the tree of its text.
#[derive(Drop)]
pub struct Examined {
    pub tree: Tree,
    pub program: Program,
}

impl Model for Examined {
    ghost use Rattle.lt_front.specs.Examined.{ExaminedText, coded_examined, IsExamined};

    ghost Value = { ExaminedText };

    ghost coded = { coded_examined };

    ghost view = { λ c. record { tree = c.tree; program = c.program } };

    ghost invariant = { λ c. IsExamined (record { tree = c.tree; program = c.program }) };
}

impl Examined {
    /// What the type keeps, for callers.
    pub fn invariant_holds(&self)
        ensures { IsExamined self.now }
    {
        let _ = &self.tree;
    }
}
