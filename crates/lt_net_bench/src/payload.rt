// The payload that is sent on a channel.
ghost use Rattle.std.specs.Prelude.{◌≡◌, ◌<◌, length, slice_set};

use lt_base::{List, Value};
use std::marker::Model;

/// A payload that is filled in place.
#[derive(Drop)]
pub struct Payload {
    values: Vec<Value>,
}

impl Model for Payload {
    ghost use Rattle.std.specs.Prelude.{List as Items};
    ghost use Rattle.lt_base.specs.declared.value.Value.{Value as Datum};

    ghost Value = { Items Datum };

    ghost view = { λ p. p.values.items };
}

impl Payload {
    /// These values.
    pub fn of(values: List<Value>) -> Payload
        ensures { result ≡ values }
    {
        Payload {
            values: values.into_vec(),
        }
    }

    /// The values.
    pub fn as_slice(&self) -> &[Value]
        ensures { result.now ≡ self.now }
    {
        &self.values
    }

    /// Puts a value at a place.
    pub fn put(&mut self, place: usize, value: Value)
        requires { place < length self.old }
        ensures { self.new ≡ slice_set self.old place value }
    {
        self.values[place] = value;
    }
}
