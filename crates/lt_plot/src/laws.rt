//! What holds of plots; nothing here is run.
ghost use Rattle.lt_plot.specs.Values.{OneStepEach};

/// A line has one step for each value of its instants, in order, where the instant and the value stand, and none for an absent cell.
pub fn one_step_each()
    ensures { OneStepEach }
{}
