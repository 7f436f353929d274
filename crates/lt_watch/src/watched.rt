// What an observer makes of a run.

/// What an observer makes of the instants that the outputs it names all have; where it names none, that all outputs have.
#[derive(Clone, Copy, Debug, PartialEq, Eq)]
pub enum Watched {
    /// It holds at each of them, and there are so many.
    Holds(usize),
    /// The first instant at which it does not hold.
    Fails(usize),
}
