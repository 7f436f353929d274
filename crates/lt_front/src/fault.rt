// Why a program is refused.

ghost use Rattle.std.specs.Prelude.{◌≡◌};

use lt_base::Sizes;
use lt_cause::Cycle;
use lt_check::{ClockFault, TypeFault};
use lt_resolve::{NameFault, NameKind};
use lt_syntax::{SyntaxFault, Tree};

/// Why a program is refused: the first fault of the first check that fails, with the tree whose names it speaks of.
#[derive(Drop)]
pub enum ProgramFault {
    /// The bytes are no text of a program.
    Syntax(SyntaxFault),
    /// A name is at fault, or a limit on names is passed.
    Name(NameFault, Tree),
    /// A type is at fault.
    Type(TypeFault, Tree),
    /// A clock is at fault.
    Clock(ClockFault, Tree),
    /// The variables of the function of this number depend on each other.
    Cycle { func: u32, cycle: Cycle, tree: Tree },
    /// `main` with all functions that it calls is too large.
    TooMany(Sizes),
}

impl ProgramFault {
    ghost use Rattle.lt_front.specs.Limits.{is_limit};

    /// Whether a limit is passed, on what the text declares or on the sizes of `main`.
    pub fn is_limit(&self) -> bool
        ensures { result ≡ is_limit self.now }
    {
        match self {
            ProgramFault::Name(fault, _) => matches!(fault.kind, NameKind::Limit),
            ProgramFault::TooMany(_) => true,
            _ => false,
        }
    }
}
