// A channel that changes what it carries, and stores all of it.
ghost use Rattle.std.specs.Prelude.{◌≡◌, ◌≢◌, ◌++◌, ◌∷◌, [], length, map, IfOk, OnOk, OnErr};
ghost use Rattle.lt_base.specs.Value.{ty_of};
ghost use Rattle.lt_io.specs.FlipState.{flipped};

use crate::Message;
use lt_base::{List, Memory, Ty, Value};
use std::alloc::Global;
use std::marker::Model;

/// The messages in transit are those sent behind the ones delivered.
#[derive(Drop)]
pub struct FlipChannel {
    kind: List<Ty>,
    sent: Vec<Message>,
    delivered: Vec<Message>,
}

impl Model for FlipChannel {
    ghost use Rattle.lt_io.specs.FlipState.{FlipState, IsStored};

    ghost Value = { FlipState };

    ghost view = { λ c. record { kind = c.kind; sent = c.sent.items; delivered = c.delivered.items } };

    ghost invariant = { λ c. IsStored (record { kind = c.kind; sent = c.sent.items; delivered = c.delivered.items }) };
}

impl FlipChannel {
    ghost use Rattle.lt_io.specs.FlipState.{silent, waits, TakesFlipped};

    /// A channel with payloads of these types, on which nothing was sent.
    pub fn new(alloc: Global, kind: &[Ty]) -> Result<Self, Memory>
        ensures { IfOk result (λ channel. channel ≡ silent kind.now) }
    {
        Ok(FlipChannel {
            kind: List::from_slice(alloc, kind)?,
            sent: Vec::new(alloc),
            delivered: Vec::new(alloc),
        })
    }

    pub fn push(&mut self, message: Message) -> Result<(), Memory>
        requires { map ty_of message.payload ≡ self.old.kind }
        ensures kind { self.new.kind ≡ self.old.kind }
        ensures delivered { self.new.delivered ≡ self.old.delivered }
        ensures ok { OnOk result (self.new.sent ≡ self.old.sent ++ message ∷ []) }
        ensures waits { OnOk result (waits self.new ≡ waits self.old ++ message ∷ []) }
        ensures err { OnErr result (self.new ≡ self.old) }
    {
        self.sent.push(message)?;
        Ok(())
    }

    /// Delivers the oldest message that waits, and answers its bit.
    pub fn take(&mut self, alloc: Global, into: &mut [Value]) -> Result<bool, Memory>
        requires some { waits self.old ≢ [] }
        requires room { length into.old ≡ length self.old.kind }
        ensures kind { self.new.kind ≡ self.old.kind }
        ensures sent { self.new.sent ≡ self.old.sent }
        ensures ok { IfOk result (λ bit. TakesFlipped self.old self.new (record { payload = into.new; bit = bit })) }
        ensures err { OnErr result (self.new ≡ self.old) }
    {
        let oldest = &self.sent[self.delivered.len()];
        let bit = oldest.bit;
        let payload = flip_all(alloc, &oldest.payload)?;
        into.copy_from_slice(&payload);
        self.delivered.push(Message { payload, bit })?;
        Ok(bit)
    }
}

fn flip_all(alloc: Global, values: &[Value]) -> Result<List<Value>, Memory>
    ensures { IfOk result (λ list. list ≡ map flipped values.now) }
{
    let mut list = List::new(alloc);
    for value in values {
        list.push(flip(*value))?;
    }
    Ok(list)
}

fn flip(value: Value) -> Value
    ensures { result ≡ flipped value }
{
    match value {
        Value::Int(n) => Value::Int(n.wrapping_add(1)),
        Value::Bool(b) => Value::Bool(!b),
    }
}
