// The calls on an object in memory, of which some are to fail.
ghost use Rattle.std.specs.Prelude.{◌≡◌, ◌<◌, ◌+◌, ◌-◌, ◌^◌, IsErr};

use crate::Failed;
use lt_base::List;

/// The numbers of the calls that are to fail, counted from 1, and the calls made so far.
#[derive(Drop)]
pub struct Calls {
    pub fails: List<u64>,
    pub made: u64,
    pub faults: u64,
}

impl Calls {
    ghost use Rattle.std.specs.Prelude.{◌↔◌};
    ghost use Rattle.lt_io.specs.Counts.{MayFail, Counted};
    ghost use Rattle.lt_io.specs.Calls.{IsListed, CountsCall};

    pub fn new(fails: List<u64>) -> Self
        ensures { result ≡ record { fails = fails; made = 0; faults = 0 } }
    {
        Calls {
            fails,
            made: 0,
            faults: 0,
        }
    }

    /// Counts a call, which fails where it is listed.
    pub fn call(&mut self) -> Result<(), Failed>
        requires { MayFail self.old.faults }
        ensures counts { CountsCall self.old self.new }
        ensures cause { Counted self.old.faults self.new.faults result }
        ensures listed { IsErr result ↔ IsListed self.old }
    {
        self.made = self.made.saturating_add(1);
        if self.fails.contains(&self.made) {
            return Err(self.fault());
        }
        Ok(())
    }

    /// Counts a fault.
    pub fn fault(&mut self) -> Failed
        requires { MayFail self.old.faults }
        ensures { self.new ≡ record self.old { faults = self.old.faults + 1 } }
    {
        self.faults += 1;
        Failed
    }
}
