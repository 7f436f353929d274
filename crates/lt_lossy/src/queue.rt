// Queues of send times.
ghost use Rattle.std.specs.Prelude.{◌≡◌, ◌≤◌, ◌<◌, ◌++◌, ◌∷◌, [], length, drop, IfOk, IfSome};
ghost use Rattle.lt_arch.specs.declared.limits.TheConstants.{GREATEST_TIME};
ghost use Rattle.lt_lossy.specs.Times.{oldest_in};
ghost use Rattle.lt_lossy.specs.Window.{room};

use crate::room::ROOM;
use lt_base::Memory;
use std::alloc::Global;
use std::collections::VecDeque;
use std::marker::Model;

/// The send times of the messages in transit on a channel, oldest first, with room for 64.
#[derive(Drop)]
pub struct Queue {
    times: VecDeque<u64>,
}

impl Model for Queue {
    ghost use Rattle.std.specs.Prelude.{List, ℕ};
    ghost use Rattle.lt_lossy.specs.Queued.{IsQueue};

    ghost Value = { List ℕ };

    ghost view = { λ q. q.times.items };

    ghost use Rattle.std.specs.VecDeque.{deque_capacity};

    ghost invariant = { λ q. IsQueue q.times.items (deque_capacity q.times) };
}

impl Queue {
    pub fn new(alloc: Global) -> Result<Queue, Memory>
        ensures { IfOk result (λ queue. queue ≡ []) }
    {
        Ok(Queue {
            times: VecDeque::with_capacity(alloc, ROOM as usize)?,
        })
    }

    /// Appends a send time.
    pub fn push(&mut self, at: u64)
        requires space { length self.old < room }
        requires time { at ≤ GREATEST_TIME }
        ensures { self.new ≡ self.old ++ at ∷ [] }
    {
        self.times.push_back_reserved(at);
    }

    /// Takes the oldest send time away, if there is one.
    pub fn pop(&mut self)
        ensures { self.new ≡ drop 1 self.old }
    {
        self.times.pop_front();
    }

    pub fn oldest(&self) -> Option<u64>
        ensures value { result ≡ oldest_in self.now }
        ensures time { IfSome result (λ at. at ≤ GREATEST_TIME) }
    {
        self.times.front().copied()
    }
}
