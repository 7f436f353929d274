// Faults of a text.

/// What is wrong with a text.
#[derive(Clone, Copy, Debug, PartialEq, Eq, Drop)]
pub enum SyntaxKind {
    /// A byte outside comments starts no token.
    BadByte,
    /// A number is past 9223372036854775807.
    BadNumber,
    /// The tokens up to this one begin no program, or the text ends too early.
    Unexpected,
    /// An expression is higher than 200.
    TooDeep,
}

/// The first offending place of a text: a byte offset, or the length of the text where it ends too early.
#[derive(Clone, Copy, Debug, PartialEq, Eq, Drop)]
pub struct SyntaxFault {
    pub at: usize,
    pub kind: SyntaxKind,
}
