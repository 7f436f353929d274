// The lists of a step's code.

ghost use Rattle.std.specs.Prelude.{◌≡◌};

use lt_step::{Code, Keep, Let};

pub(crate) fn lets_of(code: &Code) -> &[Let]
    ensures { result.now ≡ code.now.lets }
{
    &code.lets
}

pub(crate) fn keeps_of(code: &Code) -> &[Keep]
    ensures { result.now ≡ code.now.keeps }
{
    &code.keeps
}
