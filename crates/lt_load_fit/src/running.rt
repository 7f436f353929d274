// The function of a program that is run.
ghost use Rattle.std.specs.Prelude.{◌≡◌};
ghost use Rattle.lt_load_fit.specs.Main.{main_in};

use lt_base::{Func, Program};

/// The function of a program that is run.
pub fn main_of(program: &Program) -> &Func
    ensures { result.now ≡ main_in program.now }
{
    program.invariant_holds();
    &program.funcs[program.main as usize]
}
