// What stands at a number in declarations and functions.

ghost use Rattle.std.specs.Prelude.{◌≡◌, ◌<◌, Some, None, length, slice_get, MatchOption};
ghost use Rattle.lt_base.specs.Meaning.{function_of};
ghost use Rattle.lt_base.specs.Typing.{ty_at, input_types, answer_type};

use lt_base::{Decl, Func, List, Ty};

/// The declared type of a variable, if there is such a variable.
pub fn ty_at(decls: &List<Decl>, variable: u32) -> Option<Ty>
    ensures { result ≡ ty_at decls.now variable }
{
    match decls.get(variable as usize) {
        Some(decl) => Some(decl.ty),
        None => None,
    }
}

/// The declared type of a variable that there is.
pub fn declared_type(decls: &List<Decl>, variable: u32) -> Ty
    requires { variable < length decls.now }
    ensures { Some result ≡ ty_at decls.now variable }
{
    decls[variable as usize].ty
}

/// The function of a number, if there is one.
pub fn function_at(funcs: &List<Func>, number: u32) -> Option<&Func>
    ensures { MatchOption result (function_of funcs.now number ≡ None) (λ f. function_of funcs.now number ≡ Some f.now) }
{
    funcs.get(number as usize)
}

/// The type of an input.
pub fn input_type(f: &Func, input: usize) -> Ty
    requires { input < f.now.n_in }
    ensures { slice_get (input_types f.now) input ≡ Some result }
{
    f.decls[input].ty
}

/// The type of the only output.
pub fn answer_type(f: &Func) -> Option<Ty>
    ensures { result ≡ answer_type f.now.decls f.now.outs }
{
    match f.outs.as_slice() {
        [output] => ty_at(&f.decls, *output),
        _ => None,
    }
}
