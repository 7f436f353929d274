// Schedules over links that lose messages, as a generator draws them: two nodes under back-pressure whose outputs read each
// other's last value.

use lt_base::Memory;
use rand_core::Rng;
use rand_xoshiro::SplitMix64;
use std::alloc::Global;

// How many rows of inputs there are.
const ROWS: u32 = 6;

// The bounds of time that a schedule keeps, in ticks.
const SHORTEST_PERIOD: u64 = 9;

const LONGEST_PERIOD: u64 = 11;

const SHORTEST_DELAY: u64 = 1;

const LONGEST_DELAY: u64 = 4;

// A node: whether it has executed an instant that it has not sent, how many it has executed, and its last activation.
#[derive(Clone, Copy)]
struct Seat {
    ready: bool,
    executed: u32,
    last: Option<u64>,
}

// A channel: the newest number that it delivered, its messages in transit with number and send time, oldest first, and how many
// it lost since its last delivery.
#[derive(Drop)]
struct Link {
    newest: u32,
    transit: Vec<(u32, u64)>,
    losses: u64,
}

/// A schedule so far: its rows, where it stands, and the time of its last event.
#[derive(Drop)]
pub struct Drawn {
    pub rows: String,
    limit: u64,
    time: u64,
    seats: [Seat; 2],
    links: Vec<Link>,
}

const NODES: [&str; 2] = ["act,a", "act,b"];

// A channel's row where it delivers, and where it loses: data from a and from b, and acknowledgements from a and from b.
const CHANNELS: [(&str, &str); 4] = [
    ("data,a>b", "losedata,a>b"),
    ("data,b>a", "losedata,b>a"),
    ("ack,a>b", "loseack,a>b"),
    ("ack,b>a", "loseack,b>a"),
];

impl Drawn {
    fn start(alloc: Global, limit: u64) -> Result<Drawn, Memory> {
        let mut links = Vec::new(alloc);
        for _channel in CHANNELS {
            links.push(Link {
                newest: 0,
                transit: Vec::new(alloc),
                losses: 0,
            })?;
        }
        let seat = Seat {
            ready: false,
            executed: 0,
            last: None,
        };
        Ok(Drawn {
            rows: String::from_str(alloc, "time,event,place/")?,
            limit,
            time: 0,
            seats: [seat, seat],
            links,
        })
    }

    /// How many instants the two nodes have executed.
    pub fn executed(&self) -> [u32; 2] {
        [self.seats[0].executed, self.seats[1].executed]
    }

    // By when something has to happen.
    fn due(&self) -> u64 {
        let mut due = u64::MAX;
        for seat in self.seats {
            let last = seat.last.unwrap_or(0);
            due = due.min(last.saturating_add(LONGEST_PERIOD));
        }
        for link in &self.links {
            if let Some((_, sent)) = link.transit.first() {
                due = due.min(sent.saturating_add(LONGEST_DELAY));
            }
        }
        due
    }

    // A channel is fresh for a node where its newest number is at least the node's executed count.
    fn is_fresh(&self, channel: usize, seat: Seat) -> bool {
        self.links
            .get(channel)
            .is_some_and(|link| link.newest >= seat.executed)
    }

    fn wake_seat(&self, node: usize) -> Seat {
        let seat = self.seats[node % 2];
        let woken = Seat {
            last: Some(self.time),
            ..seat
        };
        if seat.ready && self.is_fresh(3 - node % 2, seat) {
            return Seat {
                ready: false,
                ..woken
            };
        }
        if !seat.ready && seat.executed < ROWS && self.is_fresh(1 - node % 2, seat) {
            return Seat {
                ready: true,
                executed: seat.executed.saturating_add(1),
                ..woken
            };
        }
        woken
    }

    fn post(&mut self, channel: usize, number: u32) -> Result<(), Memory> {
        let time = self.time;
        if number > 0 {
            if let Some(link) = self.links.get_mut(channel) {
                link.transit.push((number, time))?;
            }
        }
        Ok(())
    }

    fn add_row(&mut self, alloc: Global, words: &str) -> Result<(), Memory> {
        let time = self.time;
        let row = format!(in alloc; "{time},{words}/")?;
        self.rows.push_str(row.as_str())?;
        Ok(())
    }

    // An activation, unless it would come too soon: the node sends its newest numbers again.
    fn activate(&mut self, alloc: Global, node: usize) -> Result<(), Memory> {
        let last = self.seats[node % 2].last;
        if last.is_some_and(|last| self.time < last.saturating_add(SHORTEST_PERIOD)) {
            return Ok(());
        }
        let seat = self.wake_seat(node);
        self.seats[node % 2] = seat;
        self.add_row(alloc, NODES[node % 2])?;
        let sent = seat.executed.saturating_sub(u32::from(seat.ready));
        self.post(node % 2, sent)?;
        self.post(2 + node % 2, seat.executed)
    }

    // A delivery or a loss, unless nothing is in transit or it would come too early.
    fn take(&mut self, alloc: Global, channel: usize, loses: bool) -> Result<(), Memory> {
        let (time, limit) = (self.time, self.limit);
        let Some(link) = self.links.get_mut(channel) else {
            return Ok(());
        };
        let Some((number, sent)) = link.transit.first() else {
            return Ok(());
        };
        let (number, sent) = (*number, *sent);
        let loses = loses && link.losses < limit;
        if !loses && time < sent.saturating_add(SHORTEST_DELAY) {
            return Ok(());
        }
        link.transit.remove(0);
        if loses {
            link.losses = link.losses.saturating_add(1);
        } else {
            link.losses = 0;
            link.newest = number;
        }
        let (delivered, lost) = CHANNELS[channel % 4];
        self.add_row(alloc, if loses { lost } else { delivered })
    }

    // One event, or a tick later.
    fn go_on(&mut self, alloc: Global, dice: &mut SplitMix64) -> Result<(), Memory> {
        if dice.next_u64() % 3 == 0 && self.time < self.due() {
            self.time = self.time.saturating_add(1);
        }
        let loses = dice.next_u64() % 3 == 0;
        match dice.next_u64() % 6 {
            0 => self.activate(alloc, 0),
            1 => self.activate(alloc, 1),
            channel => self.take(alloc, (channel - 2) as usize, loses),
        }
    }
}

/// Draws a schedule in which a channel loses at most so many messages in a row.
pub fn draw(alloc: Global, dice: &mut SplitMix64, limit: u64) -> Result<Drawn, Memory> {
    let mut drawn = Drawn::start(alloc, limit)?;
    for step in 0..10_000 {
        // Nothing may be due at the end.
        if step >= 300 && drawn.time < drawn.due() {
            break;
        }
        drawn.go_on(alloc, dice)?;
    }
    drawn.add_row(alloc, "end,")?;
    Ok(drawn)
}
