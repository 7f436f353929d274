// Functions.

ghost use Rattle.std.specs.Prelude.{◌≡◌, ◌<◌, IfOk, MatchOption, length, slice_get};
ghost use Rattle.lt_base.specs.Program.{GoodFunction};
ghost use Rattle.lt_base.specs.Expression.{shape};

use crate::{Clock, Duplicate, Expr, List, Memory, Name, Ty};
use std::marker::Model;

/// A declared variable.
#[derive(Drop)]
pub struct Decl {
    pub name: Name,
    pub ty: Ty,
    pub clock: Clock,
}

impl Decl {
    /// An equal declaration.
    pub fn copy(&self) -> Result<Decl, Memory>
        ensures { IfOk result (λ copy. copy ≡ self.now) }
    {
        Ok(Decl {
            name: self.name.copy()?,
            ty: self.ty,
            clock: self.clock.copy()?,
        })
    }
}

impl Duplicate for Decl {
    fn duplicate(&self) -> Result<Decl, Memory> {
        self.copy()
    }
}

/// The equation of a variable.
#[derive(Drop)]
pub struct Equation {
    pub left: u32,
    pub right: Expr,
}

// Contracts see the right side without pointers.
impl Model for Equation {
    ghost use Rattle.std.specs.Prelude.{ℕ};
    ghost use Rattle.std.specs.Coded.{coded×, coded_ℕ};
    ghost use Rattle.lt_base.specs.Expression.{Expression, shape};
    ghost use Rattle.lt_base.specs.Codes.{coded_expression};

    ghost Value = { ℕ × Expression };

    ghost coded = { coded× coded_ℕ coded_expression };

    ghost view = { λ e. (e.left, shape e.right) };
}

impl Equation {
    pub fn new(left: u32, right: Expr) -> Equation
        ensures { result ≡ (left, shape right) }
    {
        Equation { left, right }
    }

    /// The number of the variable.
    pub fn left(&self) -> u32
        ensures { result ≡ self.now.0 }
    {
        self.left
    }

    /// The right side.
    pub fn right(&self) -> &Expr
        ensures { shape result.now ≡ self.now.1 }
    {
        &self.right
    }

    /// An equal equation.
    pub fn copy(&self) -> Result<Equation, Memory>
        ensures { IfOk result (λ copy. copy ≡ self.now) }
    {
        Ok(Equation {
            left: self.left,
            right: self.right.copy()?,
        })
    }
}

impl Duplicate for Equation {
    fn duplicate(&self) -> Result<Equation, Memory> {
        self.copy()
    }
}

/// A function: inputs first, then outputs, then locals.
#[derive(Drop)]
pub struct Func {
    pub name: Name,
    pub decls: List<Decl>,
    pub n_in: u32,
    pub outs: List<u32>,
    pub eqs: List<Equation>,
}

impl Model for Func {
    ghost use Rattle.lt_base.specs.Program.{Function, coded_function, GoodFunction};

    ghost Value = { Function };

    ghost coded = { coded_function };

    ghost view = { λ f. record { name = f.name; decls = f.decls; n_in = f.n_in; outs = f.outs; eqs = f.eqs } };

    ghost invariant = { λ f. GoodFunction (record { name = f.name; decls = f.decls; n_in = f.n_in; outs = f.outs; eqs = f.eqs }) };
}

impl Func {
    pub fn new(
        name: Name,
        decls: List<Decl>,
        n_in: u32,
        outs: List<u32>,
        eqs: List<Equation>,
    ) -> Func
        requires { GoodFunction (record { name = name; decls = decls; n_in = n_in; outs = outs; eqs = eqs }) }
        ensures { result ≡ record { name = name; decls = decls; n_in = n_in; outs = outs; eqs = eqs } }
    {
        Func {
            name,
            decls,
            n_in,
            outs,
            eqs,
        }
    }

    /// What the type keeps, for callers.
    pub fn invariant_holds(&self)
        ensures { GoodFunction self.now }
    {
        let _ = &self.n_in;
    }

    /// The number of variables.
    pub fn variables(&self) -> usize
        ensures { result ≡ length self.now.decls }
    {
        self.decls.len()
    }

    /// The right side of the equation of this number.
    pub fn right(&self, equation: usize) -> &Expr
        requires { equation < length self.now.eqs }
        ensures { MatchOption (slice_get self.now.eqs equation) ⊥ (λ e. shape result.now ≡ e.1) }
    {
        let equation = &self.eqs[equation];
        &equation.right
    }

    /// An equal function.
    pub fn copy(&self) -> Result<Func, Memory>
        ensures { IfOk result (λ copy. copy ≡ self.now) }
    {
        Ok(Func {
            name: self.name.copy()?,
            decls: self.decls.copy()?,
            n_in: self.n_in,
            outs: self.outs.copy()?,
            eqs: self.eqs.copy()?,
        })
    }
}

impl Duplicate for Func {
    fn duplicate(&self) -> Result<Func, Memory> {
        self.copy()
    }
}
