// Programs.

ghost use Rattle.std.specs.Prelude.{◌≡◌, IfOk};
ghost use Rattle.lt_base.specs.Program.{GoodProgram};

use crate::{Func, List, Memory};
use std::marker::Model;

/// A program: its functions, and the number of the one that is run.
#[derive(Drop)]
pub struct Program {
    pub funcs: List<Func>,
    pub main: u32,
}

impl Model for Program {
    ghost use Rattle.lt_base.specs.Program.{WholeProgram, coded_program, GoodProgram};

    ghost Value = { WholeProgram };

    ghost coded = { coded_program };

    ghost view = { λ p. record { funcs = p.funcs; main = p.main } };

    ghost invariant = { λ p. GoodProgram (record { funcs = p.funcs; main = p.main }) };
}

impl Program {
    pub fn new(funcs: List<Func>, main: u32) -> Program
        requires { GoodProgram (record { funcs = funcs; main = main }) }
        ensures { result ≡ record { funcs = funcs; main = main } }
    {
        Program { funcs, main }
    }

    /// What the type keeps, for callers.
    pub fn invariant_holds(&self)
        ensures { GoodProgram self.now }
    {
        let _ = &self.main;
    }

    /// An equal program.
    pub fn copy(&self) -> Result<Program, Memory>
        ensures { IfOk result (λ copy. copy ≡ self.now) }
    {
        Ok(Program {
            funcs: self.funcs.copy()?,
            main: self.main,
        })
    }
}

/// A function without calls, with the variable of `main` from whose equation each of its variables arose.
#[derive(Drop)]
pub struct Whole {
    pub func: Func,
    pub origin: List<u32>,
}

impl Whole {
    /// An equal function with equal origins.
    pub fn copy(&self) -> Result<Whole, Memory>
        ensures { IfOk result (λ copy. copy ≡ self.now) }
    {
        Ok(Whole {
            func: self.func.copy()?,
            origin: self.origin.copy()?,
        })
    }
}

/// How large a function is, with all functions that it calls: the number of its variables and delays, where a delay with an
/// expression on its left counts twice, and the number of its expression parts. Each is cut at the greatest number.
#[derive(Clone, Copy, Debug, PartialEq, Eq)]
pub struct Sizes {
    pub weight: u64,
    pub parts: u64,
}
