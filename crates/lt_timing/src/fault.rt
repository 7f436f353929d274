// What makes a timing one that is not accepted.

/// Which of the three inequalities of a time-based timing.
#[derive(Clone, Copy, Debug, PartialEq, Eq)]
pub enum Which {
    /// Every message of a round is there before a node executes its next instant.
    Execute,
    /// A node executes its next instant before a message of the next round is there.
    Send,
    /// A node executes its first instant before any message is there.
    First,
}

/// The first inequality that fails for some node, the first such node, and the two sides in ticks: the left
/// one is not above the right one.
#[derive(Clone, Copy, Debug, PartialEq, Eq)]
pub struct TimingFault {
    pub which: Which,
    pub node: u32,
    pub left: u128,
    pub right: u128,
}
