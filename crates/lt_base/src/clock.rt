// Clocks.

ghost use Rattle.std.specs.Prelude.{◌≡◌, ◌∷◌, [], IfOk};
ghost use Rattle.lt_base.specs.Meaning.{outer};

use crate::{Duplicate, List, Memory};
use std::alloc::Global;
use std::marker::Model;

/// The clock of a variable: numbers of variables with polarities, outermost first. No pair means the base clock.
#[derive(Drop)]
pub struct Clock {
    pub steps: List<(u32, bool)>,
}

// Contracts see the pairs innermost first, so that going deeper puts one in front.
impl Model for Clock {
    ghost use Rattle.std.specs.Prelude.{List, ℕ, Bool, reverse};

    ghost Value = { List (ℕ × Bool) };

    ghost view = { λ c. reverse c.steps };
}

impl Clock {
    /// The base clock. It takes no memory.
    pub fn base(alloc: Global) -> Clock
        ensures { result ≡ [] }
    {
        Clock {
            steps: List::new(alloc),
        }
    }

    /// The clock at the instants of this one at which the variable has that truth value.
    pub fn deeper(self, variable: u32, polarity: bool) -> Result<Clock, Memory>
        ensures { IfOk result (λ clock. clock ≡ (variable, polarity) ∷ self) }
    {
        let mut steps = self.steps.into_vec();
        steps.push((variable, polarity))?;
        Ok(Clock {
            steps: List::of(steps),
        })
    }

    /// The clock at the instants of this one at which the variable has that truth value. This one stays as it is.
    pub fn inner(&self, variable: u32, polarity: bool) -> Result<Clock, Memory>
        ensures { IfOk result (λ clock. clock ≡ (variable, polarity) ∷ self.now) }
    {
        self.copy()?.deeper(variable, polarity)
    }

    /// The clock without its innermost pair.
    pub fn outer(&self) -> Result<Clock, Memory>
        ensures { IfOk result (λ clock. clock ≡ outer self.now) }
    {
        let mut steps = self.steps.copy()?.into_vec();
        let _ = steps.pop();
        Ok(Clock {
            steps: List::of(steps),
        })
    }

    /// An equal clock.
    pub fn copy(&self) -> Result<Clock, Memory>
        ensures { IfOk result (λ copy. copy ≡ self.now) }
    {
        Ok(Clock {
            steps: self.steps.copy()?,
        })
    }
}

impl Duplicate for Clock {
    fn duplicate(&self) -> Result<Clock, Memory> {
        self.copy()
    }
}
