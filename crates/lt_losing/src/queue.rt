// Queues of numbers.
ghost use Rattle.std.specs.Prelude.{◌≡◌, ◌++◌, ◌∷◌, [], drop, OnOk};
ghost use Rattle.lt_lossy.specs.Times.{oldest_in};
ghost use Rattle.lt_losing.specs.Losing.{last_or, with_arrival};

use lt_base::Memory;
use std::alloc::Global;
use std::collections::VecDeque;
use std::marker::Model;

/// Numbers of the messages in transit on a channel, oldest first, or the times at which they arrive.
#[derive(Drop)]
pub struct Queue {
    entries: VecDeque<u64>,
}

impl Model for Queue {
    ghost use Rattle.std.specs.Prelude.{List, ℕ};

    ghost Value = { List ℕ };

    ghost view = { λ q. q.entries.items };
}

impl Queue {
    pub fn new(alloc: Global) -> Queue
        ensures { result ≡ [] }
    {
        Queue {
            entries: VecDeque::new(alloc),
        }
    }

    pub fn push(&mut self, entry: u64) -> Result<(), Memory>
        ensures { OnOk result (self.new ≡ self.old ++ entry ∷ []) }
    {
        self.entries.push_back(entry)?;
        Ok(())
    }

    /// Appends an arrival, which comes no earlier than the last one.
    pub fn push_arrival(&mut self, at: u64) -> Result<(), Memory>
        ensures { OnOk result (self.new ≡ with_arrival self.old at) }
    {
        let last = self.last();
        self.push(if last < at { at } else { last })
    }

    /// Takes the oldest entry away, if there is one.
    pub fn pop(&mut self)
        ensures { self.new ≡ drop 1 self.old }
    {
        self.entries.pop_front();
    }

    pub fn oldest(&self) -> Option<u64>
        ensures { result ≡ oldest_in self.now }
    {
        self.entries.front().copied()
    }

    // The newest entry, and 0 where there is none.
    fn last(&self) -> u64
        ensures { result ≡ last_or 0 self.now }
    {
        match self.entries.back() {
            Some(entry) => *entry,
            None => 0,
        }
    }
}
