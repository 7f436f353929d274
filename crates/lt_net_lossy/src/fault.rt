// How a net over links that lose messages refuses an event.

use lt_lossy::LossyOffence;
use lt_net::First;

/// Why a net refuses an event.
#[derive(Clone, Copy, Debug, PartialEq, Eq, Drop)]
pub enum LossyFault {
    /// The event has this offence.
    Offence(LossyOffence),
    /// A call on the fabric failed.
    Link,
    /// No memory was found.
    Memory,
    /// An earlier event stopped the net.
    Stopped(First),
}
