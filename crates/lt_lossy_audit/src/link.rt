// A channel and what is in transit on it.
ghost use Rattle.std.specs.Prelude.{◌≡◌, ◌≤◌, ◌<◌, ◌+◌, ◌-◌, ◌^◌, length, true, IfOk, IfSome, slice_get};
ghost use Rattle.lt_arch.specs.declared.limits.TheConstants.{GREATEST_TIME};
ghost use Rattle.lt_lossy.specs.Step.{link_with_message, link_delivered, link_lost};
ghost use Rattle.lt_lossy.specs.Window.{room};
ghost use Rattle.lt_lossy_audit.specs.Links.{link_numbers, link_send_times, no_link};

use crate::letter::Letter;
use lt_base::Memory;
use std::alloc::Global;
use std::collections::VecDeque;
use std::marker::Model;

// How many messages of a channel are in transit at most.
const ROOM: usize = 64;

/// The number of the newest message that a channel delivered, how many it lost since, and the messages in transit, oldest first, with room for 64.
#[derive(Drop)]
pub struct Link {
    newest: u32,
    losses: u64,
    transit: VecDeque<Letter>,
}

impl Model for Link {
    ghost use Rattle.std.specs.Prelude.{map};
    ghost use Rattle.lt_lossy.specs.State.{LinkState};
    ghost use Rattle.lt_lossy_audit.specs.Letters.{letter_message};

    ghost Value = { LinkState };

    ghost view = { λ a. record { newest = a.newest; transit = map letter_message a.transit.items; losses = a.losses } };

    ghost use Rattle.std.specs.VecDeque.{deque_capacity};
    ghost use Rattle.lt_lossy_audit.specs.Letters.{AreLetters};

    ghost invariant = { λ a. AreLetters a.transit.items (deque_capacity a.transit) };
}

impl Link {
    /// Nothing was delivered or lost, or is in transit.
    pub fn new(alloc: Global) -> Result<Link, Memory>
        ensures { IfOk result (λ link. link ≡ no_link) }
    {
        Ok(Link {
            newest: 0,
            losses: 0,
            transit: VecDeque::with_capacity(alloc, ROOM)?,
        })
    }

    /// The number of the newest message that it delivered, and 0 before the first one.
    pub fn newest(&self) -> u32
        ensures { result ≡ self.now.newest }
    {
        self.newest
    }

    /// How many messages it lost since the last delivery.
    pub fn losses(&self) -> u64
        ensures { result ≡ self.now.losses }
    {
        self.losses
    }

    /// How many messages are in transit.
    pub fn in_transit(&self) -> usize
        ensures { result ≡ length self.now.transit }
    {
        self.transit.len()
    }

    /// The number of the message in transit at this place, the oldest one first.
    pub fn number(&self, place: usize) -> Option<u32>
        ensures { result ≡ slice_get (link_numbers self.now) place }
    {
        match self.transit.get(place) {
            Some(letter) => Some(letter.number),
            None => None,
        }
    }

    /// The send time of the message in transit at this place, the oldest one first.
    pub fn sent_at(&self, place: usize) -> Option<u64>
        ensures sent { result ≡ slice_get (link_send_times self.now) place }
        ensures timely { IfSome result (λ sent. sent ≤ GREATEST_TIME) }
    {
        match self.transit.get(place) {
            Some(letter) => Some(letter.sent_at),
            None => None,
        }
    }

    /// The message of a number is sent at a time.
    pub fn send(&mut self, number: u32, at: u64)
        requires space { length self.old.transit < room }
        requires time { at ≤ GREATEST_TIME }
        ensures { self.new ≡ link_with_message true number at self.old }
    {
        self.transit.push_back_reserved(Letter {
            number,
            sent_at: at,
        });
    }

    /// The oldest message in transit is delivered, if there is one.
    pub fn deliver(&mut self)
        ensures { self.new ≡ link_delivered self.old self.old.transit }
    {
        if let Some(letter) = self.transit.pop_front() {
            self.newest = letter.number;
            self.losses = 0;
        }
    }

    /// The oldest message in transit is lost, if there is one.
    pub fn lose(&mut self)
        requires { self.old.losses < 2 ^ 64 - 1 }
        ensures { self.new ≡ link_lost self.old self.old.transit }
    {
        if self.transit.pop_front().is_some() {
            self.losses += 1;
        }
    }
}
