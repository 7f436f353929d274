// A sink in memory.
ghost use Rattle.std.specs.Prelude.{◌≡◌, ◌==◌, ◌<◌, ◌-◌, ◌^◌, All, length, true, []};
ghost use Rattle.lt_io.specs.Counts.{MayFail};

use crate::calls::Calls;
use crate::{Sink, SinkErr};
use lt_base::List;
use std::alloc::Global;

/// A byte list that grows, and the numbers of the calls that are to fail, counted from 1.
#[derive(Drop)]
pub struct MemSink {
    bytes: List<u8>,
    calls: Calls,
}

impl MemSink {
    ghost use Rattle.lt_io.specs.MemSink.{mem_sink_state, sink_calls};

    /// An empty sink, which grows by this allocator. It takes no memory.
    pub fn new(alloc: Global, fails: List<u64>) -> Self
        requires { All (λ n. n < 2 ^ 64 - 1) fails }
        ensures state { mem_sink_state result ≡ record { sound = length fails == 0; told = true; taken = []; faults = 0 } }
        ensures calls { sink_calls result ≡ record { fails = fails; made = 0; faults = 0 } }
    {
        MemSink {
            bytes: List::new(alloc),
            calls: Calls::new(fails),
        }
    }

    /// The bytes taken. It takes no memory.
    pub fn into_bytes(self) -> List<u8>
        ensures { result ≡ (mem_sink_state self).taken }
    {
        self.bytes
    }
}

impl Sink for MemSink {
    ghost use Rattle.std.specs.Prelude.{◌<◌, ◌-◌, ◌^◌, ◌↔◌, length, IsErrOf};
    ghost use Rattle.lt_io.specs.SinkState.{SinkState, WritesFront};
    ghost use Rattle.lt_io.specs.Calls.{IsListed, CountsCall};
    ghost use Rattle.lt_io.specs.MemSink.{mem_sink_state, sink_calls};

    ghost state = { mem_sink_state };

    fn write(&mut self, bytes: &[u8]) -> Result<usize, SinkErr>
        requires count { MayFail (mem_sink_state self.old).faults }
        requires some { 0 < length bytes.now }
        ensures writes { WritesFront (mem_sink_state self.old) (mem_sink_state self.new) bytes.now result }
        ensures fails { IsErrOf result SinkErr.Failed ↔ IsListed (sink_calls self.old) }
        ensures calls { CountsCall (sink_calls self.old) (sink_calls self.new) }
    {
        self.calls.call()?;
        self.bytes.extend(bytes)?;
        Ok(bytes.len())
    }
}
