// Faults of an observer's text.

/// What is wrong with an observer.
#[derive(Clone, Copy, Debug, PartialEq, Eq, Drop)]
pub enum ObserverKind {
    /// A byte outside comments starts no token.
    BadByte,
    /// The tokens up to this one begin no observer, or the text ends too early.
    Unexpected,
    /// The observer is higher than 200.
    TooDeep,
    /// The name is that of no output.
    UnknownName,
    /// The output is an int.
    NotBool,
    /// The output is not on the base clock.
    NotBase,
}

/// The first offending place: a byte offset, or the length of the text where it ends too early.
#[derive(Clone, Copy, Debug, PartialEq, Eq, Drop)]
pub struct ObserverFault {
    pub at: usize,
    pub kind: ObserverKind,
}
