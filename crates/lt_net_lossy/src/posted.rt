// The payload that is sent again on a channel.
ghost use Rattle.std.specs.Prelude.{◌≡◌, length};

use lt_base::Value;
use std::marker::Model;

/// A payload that another replaces in place.
#[derive(Drop)]
pub struct Posted {
    values: Vec<Value>,
}

impl Model for Posted {
    ghost use Rattle.std.specs.Prelude.{List as Items};
    ghost use Rattle.lt_base.specs.declared.value.Value.{Value as Datum};

    ghost Value = { Items Datum };

    ghost view = { λ p. p.values.items };
}

impl Posted {
    /// These values.
    pub fn of(values: Vec<Value>) -> Posted
        ensures { result ≡ values.items }
    {
        Posted { values }
    }

    /// The values.
    pub fn as_slice(&self) -> &[Value]
        ensures { result.now ≡ self.now }
    {
        &self.values
    }

    /// Replaces the values. It takes no memory.
    pub fn replace(&mut self, values: &[Value])
        requires { length values.now ≡ length self.old }
        ensures { self.new ≡ values.now }
    {
        self.values.copy_from_slice(values);
    }
}
