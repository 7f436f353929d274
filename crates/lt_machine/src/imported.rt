// The imported operators.

ghost use Rattle.std.specs.Prelude.{◌≡◌};
ghost use Rattle.lt_base.specs.Operators.{imp};

use lt_base::{Imp, tables};

/// Something that answers the imported operators: on all arguments it gives what their table gives.
pub trait Operators: Drop {
    /// What an operator gives.
    fn apply(&self, op: Imp, a: i64, b: i64) -> i64
        ensures { result ≡ imp op a b };
}

/// The imported operators by their table.
#[derive(Clone, Copy)]
pub struct ImportedOperators;

impl Operators for ImportedOperators {
    #[inline]
    fn apply(&self, op: Imp, a: i64, b: i64) -> i64 {
        tables::imp(op, a, b)
    }
}
