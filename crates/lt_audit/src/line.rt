// A channel and what is in transit on it.
ghost use Rattle.std.specs.Prelude.{◌≡◌, ◌<◌, ◌≤◌, ◌+◌, ◌^◌, ◌++◌, ◌∷◌, [], length, slice_get, OnOk, OnErr};
ghost use Rattle.lt_arch.specs.Step.{with_delivered};
ghost use Rattle.lt_audit.specs.Audit.{kept_of, oldest};

use lt_base::Memory;
use std::alloc::Global;
use std::collections::VecDeque;
use std::marker::Model;

/// How many messages a channel has delivered, and the send times of those in transit, oldest first.
#[derive(Drop)]
pub struct Line {
    delivered: u32,
    transit: VecDeque<u64>,
}

impl Model for Line {
    ghost use Rattle.std.specs.Prelude.{◌-◌, length};
    ghost use Rattle.std.specs.VecDeque.{deque_capacity};
    ghost use Rattle.lt_audit.specs.Audit.{LineState};

    ghost Value = { LineState };

    ghost view = { λ a. record { delivered = a.delivered; transit = a.transit.items; room = deque_capacity a.transit - length a.transit.items } };
}

impl Line {
    ghost use Rattle.lt_audit.specs.Audit.{no_chan_state};

    /// Nothing is delivered or in transit.
    pub fn new(alloc: Global) -> Line
        ensures { kept_of result ≡ no_chan_state }
    {
        Line {
            delivered: 0,
            transit: VecDeque::new(alloc),
        }
    }

    /// How many messages it has delivered.
    pub fn delivered(&self) -> u32
        ensures { result ≡ self.now.delivered }
    {
        self.delivered
    }

    /// The send time of the oldest message in transit.
    pub fn oldest(&self) -> Option<u64>
        ensures { result ≡ oldest self.now.transit }
    {
        self.transit.front().copied()
    }

    /// The send time of the message in transit at this place, the oldest one first.
    pub fn sent_at(&self, place: usize) -> Option<u64>
        ensures { result ≡ slice_get self.now.transit place }
    {
        self.transit.get(place).copied()
    }

    /// How many messages are in transit.
    pub fn in_transit(&self) -> usize
        ensures { result ≡ length self.now.transit }
    {
        self.transit.len()
    }

    /// Takes room for one more message.
    pub fn make_room(&mut self) -> Result<(), Memory>
        ensures same { kept_of self.new ≡ kept_of self.old }
        ensures grows { self.old.room ≤ self.new.room }
        ensures room { OnOk result (0 < self.new.room) }
        ensures full { OnErr result (self.old.room ≡ 0) }
    {
        Ok(self.transit.reserve(1)?)
    }

    /// A message is sent at a time. It takes no memory.
    pub fn send(&mut self, at: u64)
        requires { 0 < self.old.room }
        ensures delivered { self.new.delivered ≡ self.old.delivered }
        ensures transit { self.new.transit ≡ self.old.transit ++ at ∷ [] }
    {
        self.transit.push_back_reserved(at);
    }

    /// The oldest message in transit is delivered, if there is one.
    pub fn deliver(&mut self)
        requires { self.old.delivered + length self.old.transit < 2 ^ 32 }
        ensures { kept_of self.new ≡ with_delivered (kept_of self.old) self.old.transit }
    {
        if self.transit.pop_front().is_some() {
            self.delivered += 1;
        }
    }
}
