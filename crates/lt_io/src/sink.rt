// What takes the bytes that are written.
ghost use Rattle.std.specs.Prelude.{◌<◌, ◌-◌, ◌^◌, length};
ghost use Rattle.lt_io.specs.Counts.{MayFail};
ghost use Rattle.lt_io.specs.SinkState.{SinkState, WritesFront};

use crate::SinkErr;

/// What takes bytes in order.
pub trait Sink {
    ghost state: { Self → SinkState };

    /// Takes a front of at least one byte, and says how many bytes it took. An error takes nothing.
    fn write(&mut self, bytes: &[u8]) -> Result<usize, SinkErr>
        requires count { MayFail (state self.old).faults }
        requires some { 0 < length bytes.now }
        ensures { WritesFront (state self.old) (state self.new) bytes.now result };
}
