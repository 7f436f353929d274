// The words of observers.

/// A word before its operand.
#[derive(Clone, Copy, Debug, PartialEq, Eq)]
pub enum Prefix {
    Not,
    Previous,
    Once,
    Historically,
}

/// A word or symbol between its operands.
#[derive(Clone, Copy, Debug, PartialEq, Eq)]
pub enum Infix {
    And,
    Or,
    Since,
    Implies,
}

/// A token that is no name.
#[derive(Clone, Copy, Debug, PartialEq, Eq)]
pub enum Sign {
    Truth(bool),
    Before(Prefix),
    Between(Infix),
    Open,
    Close,
}
