// Faults of names.

use lt_base::Name;

/// What is wrong with a name.
#[derive(Clone, Copy, Debug, PartialEq, Eq, Drop)]
pub enum NameKind {
    /// A second function, or a second variable of a function, has the name.
    Twice,
    /// A variable is not declared, or a called name is neither a function nor an imported operator.
    Unknown,
    /// An output or local has no equation.
    NoEquation,
    /// A variable has a second equation.
    TwoEquations,
    /// An input has an equation.
    EquationForInput,
    /// There is no function `main`.
    NoMain,
    /// A call has the wrong number of arguments.
    WrongCount,
    /// A called function has other than one output.
    NotOneOutput,
    /// A call lies on a closed walk of calls.
    Recursive,
    /// A limit on functions, or on a function's variables and delays, inputs or outputs is passed.
    Limit,
}

/// The first fault of the first kind: the number of the function in which it stands, and the name, or the word of the
/// limit. A missing `main` and the limit on functions have the number 0.
#[derive(Drop)]
pub struct NameFault {
    pub kind: NameKind,
    pub func: u32,
    pub name: Name,
}
