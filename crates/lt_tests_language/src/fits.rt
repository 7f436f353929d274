// Types and clocks together.
ghost use Rattle.std.specs.Prelude.{◌<◌, ◌^◌, length, All};

use crate::texts::tell;
use lt_base::{Memory, Program};
use lt_check::types_and_clocks;
use std::alloc::Global;

/// Tells whether the types and the clocks are right.
pub fn tell_fits(alloc: Global, line: &mut String, p: &Program) -> Result<(), Memory>
    requires { All (λ f. length f.decls < 2 ^ 32) p.now.funcs }
{
    tell(line, types_and_clocks(alloc, p)?)
}
