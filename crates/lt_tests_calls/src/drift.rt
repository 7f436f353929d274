// A fabric that changes each message that it carries by another number.
ghost use Rattle.std.specs.Prelude.{◌≡◌, map};
ghost use Rattle.lt_base.specs.Value.{ty_of};

use lt_base::{List, Ty, Value};
use lt_io::{Fabric, LinkErr, MemFabric};

/// Channels that add to the first value of each message, where it is an int, the number of its delivery, counted on all channels
/// from 1.
#[derive(Drop)]
pub struct DriftFabric {
    below: MemFabric,
    delivered: i64,
}

impl DriftFabric {
    /// Channels over others.
    pub fn new(below: MemFabric) -> DriftFabric
        ensures { result.below ≡ below }
    {
        DriftFabric {
            below,
            delivered: 0,
        }
    }
}

fn drift_value(value: Value, by: i64) -> Value
    ensures { ty_of result ≡ ty_of value }
{
    match value {
        Value::Int(n) => Value::Int(n.wrapping_add(by)),
        Value::Bool(b) => Value::Bool(b),
    }
}

// Changes the first value of a payload.
fn drift(payload: &mut [Value], by: i64)
    ensures { map ty_of payload.new ≡ map ty_of payload.old }
{
    if !payload.is_empty() {
        payload[0] = drift_value(payload[0], by);
    }
}

impl Fabric for DriftFabric {
    ghost use Rattle.std.specs.Prelude.{false};
    ghost use Rattle.lt_io.specs.MemFabric.{mem_fabric_state};

    // what was delivered is not told, since it is not what the channels below tell
    ghost state = { λ f. record (mem_fabric_state f.below) { faithful = false; told = false } };

    fn open(&mut self, kinds: &[List<Ty>]) -> Result<(), LinkErr> {
        self.below.open(kinds)
    }

    fn send(&mut self, ch: u32, payload: &[Value], bit: bool) -> Result<(), LinkErr> {
        self.below.send(ch, payload, bit)
    }

    fn deliver(&mut self, ch: u32, into: &mut [Value]) -> Result<bool, LinkErr> {
        let bit = self.below.deliver(ch, into)?;
        self.delivered = self.delivered.wrapping_add(1);
        drift(into, self.delivered);
        Ok(bit)
    }
}
