// What holds of every program, as a contract of a function that does nothing.

ghost use Rattle.lt_expand.specs.Expansion.{ProgramsExpand};

/// A program that passes the checks has an expansion: one function without calls that keeps the variables of `main`, their streams
/// on all input rows, and the checks.
pub fn programs_expand()
    ensures { ProgramsExpand }
{}
