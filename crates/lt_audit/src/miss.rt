// A message too few or too many.

/// An event at which a node executes while an incoming data channel has delivered another number of messages than the node has
/// executed instants. Events are counted from 1.
#[derive(Clone, Copy, Debug, PartialEq, Eq)]
pub struct Miss {
    pub event: u32,
    pub node: u32,
    /// The number of the instant that the node executes.
    pub instant: u32,
    /// The lowest such channel.
    pub channel: u32,
    /// How many messages it has delivered.
    pub delivered: u32,
}
