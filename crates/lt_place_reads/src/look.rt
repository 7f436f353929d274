// Ways in which an equation reads variables.

/// What is looked at in an equation.
#[derive(Clone, Copy)]
pub enum Look {
    /// The variables of the clock.
    Clocks,
    /// The variables that are read otherwise than as the whole of what a delay delays.
    Direct,
    /// The variable that is all that a delay delays, where the delay is not on the base clock.
    Slow,
}
