// Flat functions.

ghost use Rattle.std.specs.Prelude.{◌≡◌, IfOk};
ghost use Rattle.lt_norm.specs.Flat.{FlatFunction};

use lt_base::{Func, List, Memory};
use std::marker::Model;

/// A function with no call and no `->`, in which each delay has a literal and stands alone on a right side. Each variable
/// has the variable of `main` from whose equation it arose.
#[derive(Drop)]
pub struct Flat {
    pub func: Func,
    pub origin: List<u32>,
}

impl Model for Flat {
    ghost use Rattle.lt_norm.specs.Flat.{Originated, coded_originated, FlatFunction};

    ghost Value = { Originated };

    ghost coded = { coded_originated };

    ghost view = { λ f. record { func = f.func; origin = f.origin } };

    ghost invariant = { λ f. FlatFunction f.func };
}

impl Flat {
    pub fn new(func: Func, origin: List<u32>) -> Flat
        requires { FlatFunction func }
        ensures { result ≡ record { func = func; origin = origin } }
    {
        Flat { func, origin }
    }

    /// What the type keeps, for callers.
    pub fn invariant_holds(&self)
        ensures { FlatFunction self.now.func }
    {
        let _ = &self.origin;
    }

    /// An equal function with equal origins.
    pub fn copy(&self) -> Result<Flat, Memory>
        ensures { IfOk result (λ copy. copy ≡ self.now) }
    {
        Ok(Flat {
            func: self.func.copy()?,
            origin: self.origin.copy()?,
        })
    }
}
