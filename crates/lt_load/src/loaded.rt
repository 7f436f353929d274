// What a run is loaded as.
ghost use Rattle.lt_load.specs.Plan.{IsLoaded};

use lt_arch::{Shape, Timing};
use lt_base::Inputs;
use lt_config::Pace;
use lt_front::Checked;
use lt_place::Layout;
use std::marker::Model;

/// A program that passed all checks, on its nodes: the shape has the layout's nodes and the channels between them by the pace of the
/// protocol, the timing is accepted, where links lose messages it has the window, and the inputs are those of the program's `main`.
#[derive(Drop)]
pub struct Loaded {
    pub checked: Checked,
    pub layout: Layout,
    pub shape: Shape,
    pub timing: Timing,
    pub inputs: Inputs,
    pub pace: Pace,
}

impl Model for Loaded {
    ghost use Rattle.lt_load.specs.Plan.{LoadedPlan, coded_loaded, IsLoaded};

    ghost Value = { LoadedPlan };

    ghost coded = { coded_loaded };

    ghost view = { λ k. record { checked = k.checked; layout = k.layout; shape = k.shape; timing = k.timing; inputs = k.inputs; pace = k.pace } };

    ghost invariant = { λ k.
        IsLoaded (record { checked = k.checked; layout = k.layout; shape = k.shape; timing = k.timing; inputs = k.inputs; pace = k.pace }) };
}

impl Loaded {
    /// What the type keeps, for callers.
    pub fn invariant_holds(&self)
        ensures { IsLoaded self.now }
    {
        let _ = &self.layout;
    }
}
