// Observers.
ghost use Rattle.std.specs.Prelude.{◌≡◌, ◌<◌, ◌^◌, length};
ghost use Rattle.lt_base.specs.Limits.{greatest_height};
ghost use Rattle.lt_past.specs.Observer.{Observing, IsObserver};
ghost use Rattle.lt_past.specs.Faults.{IsObserverOf};
ghost use Rattle.lt_past.specs.Reads.{AnswersObserver, FindsObserver};

use crate::names::{mark_names, marked_places, no_marks};
use crate::reading::read_formula;
use crate::{Obs, ObserverFault};
use lt_base::{Func, List, Or};
use std::alloc::Global;
use std::marker::Model;

/// A formula over outputs of a function. `outs` are the places among its outputs of those that the formula names.
#[derive(Drop)]
pub struct Observer {
    pub outs: List<u32>,
    pub formula: Obs,
}

impl Model for Observer {
    ghost use Rattle.lt_past.specs.Observer.{Observing, coded_observing, IsObserver};
    ghost use Rattle.lt_past.specs.Views.{formula_of};

    ghost Value = { Observing };

    ghost coded = { coded_observing };

    ghost view = { λ o. record { outs = o.outs; formula = formula_of o.formula } };

    ghost invariant = { λ o. IsObserver (record { outs = o.outs; formula = formula_of o.formula }) };
}

impl Observer {
    /// What the type keeps, for callers.
    pub fn invariant_holds(&self)
        ensures { IsObserver self.now }
    {
        let _ = &self.formula;
    }
}

/// The observer that the bytes spell, over the outputs of a function; or the first fault: a place where the text goes wrong, and
/// where there is none, the first name that is that of no bool output on the base clock.
pub fn read_observer(
    alloc: Global,
    bytes: &[u8],
    main: &Func,
) -> Result<Observer, Or<ObserverFault>>
    requires { length main.now.outs < 2 ^ 32 }
    ensures exact { AnswersObserver greatest_height main.now bytes.now result }
    // An observer is found, unless memory runs out.
    ensures only { (o : Observing) → IsObserverOf greatest_height main.now bytes.now o → FindsObserver o result }
{
    let mut marks = no_marks(alloc, main.outs.len())?;
    let bad = mark_names(main, bytes, &mut marks);
    let outs = marked_places(alloc, &marks)?;
    let formula = read_formula(alloc, bytes, main, &outs)?;
    match bad {
        Some(fault) => Err(Or::Fault(fault)),
        None => Ok(Observer { outs, formula }),
    }
}
