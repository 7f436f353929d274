// A message in transit.

/// The number that a message carries, and when it was sent, in ticks.
#[derive(Clone, Copy)]
pub struct Letter {
    pub number: u32,
    pub sent_at: u64,
}
