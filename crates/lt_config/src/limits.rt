// The limits of a setup.

/// How many nodes a setup may have.
pub const MOST_NODES: usize = 32;

/// How many losses in a row a setup may allow on a channel.
pub const MOST_LOSSES: u64 = 1000;
