// Why a placement is refused.

use lt_base::Name;

/// Why a placement is refused. Variables are those of `main`, by their numbers: a variable that arose from an equation of `main` is
/// named by the variable of that equation.
#[derive(Drop)]
pub enum PlaceFault {
    /// A variable of `main` is on no node.
    Unplaced { var: u32 },
    /// A variable is listed twice.
    PlacedTwice { var: u32 },
    /// A listed name is none of a variable of `main`.
    UnknownName { name: Name },
    /// A variable of another node is read otherwise than as the whole of what a `fby` delays that stands alone.
    DirectCross { reader: u32, read: u32 },
    /// It is so read, by a `fby` that is not on the base clock.
    SlowCross { reader: u32, read: u32 },
    /// A variable of the clock is on another node.
    ClockElsewhere { var: u32, clock_var: u32 },
}
