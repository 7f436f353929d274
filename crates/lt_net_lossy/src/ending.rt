// A bench after its last event.
ghost use Rattle.std.specs.Prelude.{◌≡◌};

use crate::bench::LossyBench;
use lt_arch::Controller;
use lt_machine::Machine;
use lt_net_bench::Track;
use lt_place::Layout;

impl<C: Controller, M: Machine> LossyBench<C, M> {
    /// Its machines, the cells of its outputs, and its layout. The rest is dropped.
    pub fn into_ends(self) -> (Vec<M>, Vec<Track>, Layout)
        ensures machines { result.0.items ≡ self.machines }
        ensures tracks { result.1.items ≡ self.tracks }
        ensures layout { result.2 ≡ self.layout }
    {
        drop((self.timing, self.watch, self.sent, self.posted));
        self.inner.into_ends()
    }
}
