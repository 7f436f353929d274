// Trees of the functions at the head of an emitted file.

/// A parameter, or a variable of its own of the type `uint64_t`.
#[derive(Clone, Copy)]
pub(crate) enum Variable {
    A,
    B,
    X,
    Y,
    Z,
}

/// An operator, of unsigned numbers or of signed ones.
#[derive(Clone, Copy)]
pub(crate) enum Arithmetic {
    AddBits,
    SubtractBits,
    MultiplyBits,
    BitsRest,
    Subtract,
    Divide,
    Rest,
}

/// A comparison of signed numbers, and one of unsigned numbers.
#[derive(Clone, Copy)]
pub(crate) enum Comparison {
    Equal,
    Less,
    Most,
    MostBits,
}

/// A function that others at the head call.
#[derive(Clone, Copy)]
pub(crate) enum Aid {
    Signed,
    Negative,
    Size,
}

/// An expression.
#[derive(Drop)]
pub(crate) enum Term {
    Local(Variable),
    Int(i64),
    Bits(u64),
    ToBits(Box<Term>),
    ToInt(Box<Term>),
    Join(Arithmetic, Box<Term>, Box<Term>),
    Choice(Comparison, Box<Term>, Box<Term>, Box<Term>, Box<Term>),
    Call(Aid, Box<Term>),
}

/// A statement.
#[derive(Drop)]
pub(crate) enum Step {
    Skip,
    Declare(Variable, Term),
    Set(Variable, Term),
    Both(Box<Step>, Box<Step>),
    While(Variable, Box<Step>),
}
