// What the definitions of acceptance and of the least countdowns mean.
ghost use Rattle.std.specs.Prelude.{ℕ};
ghost use Rattle.lt_arch.specs.declared.timing.Timing.{Timing};
ghost use Rattle.lt_timing.specs.Greatest.{AreExtremes};
ghost use Rattle.lt_timing.specs.Accepts.{AreFaults, AreSidesOfEach};
ghost use Rattle.lt_timing.specs.Least.{AreLeastCountdowns, AreLeastOfSetups, HasLeastSetup};

/// The greatest and the least of some numbers are those that none is above, or below, and that some number is.
pub fn extremes()
    ensures { (f : ℕ → ℕ) (n : ℕ) → AreExtremes f n }
{}

/// The inequalities by greatest and least numbers are those of every node and every pair.
pub fn each_pair()
    ensures { AreSidesOfEach }
{}

/// A timing with a first fault is not accepted, and there is at most one.
pub fn first_fault()
    ensures { (t : Timing) → AreFaults t }
{}

/// No countdowns that meet the inequalities are less than the least ones, which meet them.
pub fn least_countdowns()
    ensures { AreLeastCountdowns }
{}

/// The same of all time-based setups with the same bounds.
pub fn least_of_setups()
    ensures { (t : Timing) → AreLeastOfSetups t }
{}

/// There is a setup with the same bounds and the least countdowns.
pub fn least_setup()
    ensures { (t : Timing) → HasLeastSetup t }
{}
