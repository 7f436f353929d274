// Protocols that are more than their timing.

/// What a protocol does beside its timing.
#[derive(Clone, Copy, Debug, PartialEq, Eq)]
pub enum Pace {
    /// The protocol of the timing, as it is.
    Plain,
    /// Over links of which each loses at most this many messages in a row.
    Lossy(u64),
    /// The node of this number paces the rounds of all: every other node sends only when it finds a message.
    Leader(u32),
}
