// How many events there are from a tick on, and when.
ghost use Rattle.std.specs.Prelude.{◌≡◌, OnOk};
ghost use Rattle.lt_tape.specs.Tapes.{fresh_tally, is_full, open_end, tally_after};

use crate::window::past_stop;
use lt_base::Memory;

/// How many events came, how many of them before the first one at a tick or after it, and when the last one of as many happened as are drawn from
/// there on where nothing is asked.
#[derive(Clone, Copy, Drop)]
pub struct Tally {
    pub from: u64,
    pub most: usize,
    pub count: usize,
    pub skipped: usize,
    pub reach: u64,
    pub last: u64,
}

impl Tally {
    /// Before the first event.
    pub fn new(from: u64, most: usize) -> Tally
        ensures { result ≡ fresh_tally from most }
    {
        Tally {
            from,
            most,
            count: 0,
            skipped: 0,
            reach: 0,
            last: 0,
        }
    }

    /// Whether as many events came as are drawn.
    pub fn is_full(&self) -> bool
        ensures { result ≡ is_full self.now }
    {
        self.most <= self.count.saturating_sub(self.skipped)
    }

    /// Where a picture ends where this is not asked.
    pub fn open_end(&self, begins: bool, stop: Option<u64>) -> u64
        ensures { result ≡ open_end self.now begins stop }
    {
        match stop {
            None => self.reach,
            Some(stop) => {
                if begins && self.most < self.count.saturating_sub(self.skipped) {
                    return self.reach;
                }
                past_stop(self.last.max(stop))
            }
        }
    }

    /// Counts one event more.
    pub fn take(&mut self, at: u64) -> Result<(), Memory>
        ensures { OnOk result (self.new ≡ tally_after self.old at) }
    {
        let Some(count) = self.count.checked_add(1) else {
            return Err(Memory);
        };
        if !self.is_full() {
            self.reach = at;
        }
        if self.skipped == self.count && at < self.from {
            self.skipped = count;
        }
        self.count = count;
        self.last = at;
        Ok(())
    }
}
