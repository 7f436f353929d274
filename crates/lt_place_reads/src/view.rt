// What stands in a flat function.

ghost use Rattle.std.specs.Prelude.{◌≡◌};
ghost use Rattle.lt_base.specs.Program.{GoodFunction};
ghost use Rattle.lt_norm.specs.Flat.{FlatFunction};

use lt_base::{Decl, Equation, Name};
use lt_norm::Flat;

/// The name.
pub fn name(f: &Flat) -> &Name
    ensures { result.now ≡ f.now.func.name }
{
    &f.func.name
}

/// The declarations.
pub fn decls(f: &Flat) -> &[Decl]
    ensures { result.now ≡ f.now.func.decls }
{
    &f.func.decls
}

/// The equations.
pub fn equations(f: &Flat) -> &[Equation]
    ensures { result.now ≡ f.now.func.eqs }
{
    &f.func.eqs
}

/// The outputs.
pub fn outputs(f: &Flat) -> &[u32]
    ensures { result.now ≡ f.now.func.outs }
{
    &f.func.outs
}

/// The number of inputs.
pub fn inputs(f: &Flat) -> u32
    ensures { result ≡ f.now.func.n_in }
{
    f.func.n_in
}

/// The variable of `main` from whose equation each variable arose.
pub fn origins(f: &Flat) -> &[u32]
    ensures { result.now ≡ f.now.origin }
{
    &f.origin
}

/// What the types keep.
pub fn invariant_holds(f: &Flat)
    ensures good { GoodFunction f.now.func }
    ensures flat { FlatFunction f.now.func }
{
    f.invariant_holds();
    f.func.invariant_holds();
}
