// A function with copies in place of its calls.

ghost use Rattle.std.specs.Prelude.{◌≡◌, ◌+◌, ◌<◌, ◌^◌, ◌++◌, length, IfOk};
ghost use Rattle.std.specs.List.{All, range_with_len};
ghost use Rattle.lt_base.specs.Program.{GoodFunction};
ghost use Rattle.lt_base.specs.Checked.{EachUse};
ghost use Rattle.lt_expand.specs.Copies.{equations_grown, with_copies};
ghost use Rattle.lt_expand.specs.Walk.{library_of, Copyable, AllInlined, owners};

use crate::inline::{Pasted, inline_side};
use lt_base::{Decl, Equation, Func, List, Memory, Whole};
use std::alloc::Global;

// The parts of a function with copies: all declarations with the equations of the copies, its own equations, and the origins.
#[derive(Drop)]
struct Opening {
    pasted: Pasted,
    eqs: Vec<Equation>,
    origins: Vec<u32>,
}

// The numbers below this one.
fn numbers(alloc: Global, count: u32) -> Result<Vec<u32>, Memory>
    ensures { IfOk result (λ r. r.items ≡ range_with_len 0 count) }
{
    let mut numbers = Vec::with_capacity(alloc, count as usize)?;
    for number in 0..count {
        numbers.push(number)?;
    }
    Ok(numbers)
}

// Replaces the calls in these equations by copies.
fn open_equations(
    alloc: Global,
    versions: &[Option<Func>],
    known: &List<Decl>,
    equations: &List<Equation>,
) -> Result<Opening, Memory>
    requires lefts { All (λ q. q.0 < length known.now) equations.now }
    requires ready { All (λ q. EachUse (λ h k. Copyable versions.now h k) q.1) equations.now }
    requires room { length known.now + equations_grown (library_of versions.now) equations.now < 2 ^ 32 }
    ensures { IfOk result (λ r. AllInlined (library_of versions.now) known.now equations.now
        r.pasted.decls.items r.eqs.items r.pasted.eqs.items r.origins.items) }
{
    let mut pasted = Pasted {
        decls: known.copy()?.into_vec(),
        eqs: Vec::new(alloc),
    };
    let mut eqs = Vec::with_capacity(alloc, equations.len())?;
    let mut origins = numbers(alloc, known.len() as u32)?;
    for equation in equations.iter() {
        let right = inline_side(alloc, versions, known, &mut pasted, equation)?;
        eqs.push(Equation::new(equation.left(), right))?;
        origins.resize(pasted.decls.len(), equation.left())?;
    }
    Ok(Opening {
        pasted,
        eqs,
        origins,
    })
}

/// A function with copies in place of its calls, and for each variable the one of the function in whose equation it arose.
pub(crate) fn open(alloc: Global, versions: &[Option<Func>], f: &Func) -> Result<Whole, Memory>
    requires good { GoodFunction (with_copies (library_of versions.now) f.now) }
    requires ready { All (λ q. EachUse (λ h k. Copyable versions.now h k) q.1) f.now.eqs }
    requires room { length f.now.decls + equations_grown (library_of versions.now) f.now.eqs < 2 ^ 32 }
    ensures form { IfOk result (λ whole. whole.func ≡ with_copies (library_of versions.now) f.now) }
    ensures origins { IfOk result (λ whole. whole.origin ≡ range_with_len 0 (length f.now.decls) ++ owners (library_of versions.now) f.now.eqs) }
{
    f.invariant_holds();
    let opening = open_equations(alloc, versions, &f.decls, &f.eqs)?;
    let Opening {
        pasted,
        mut eqs,
        origins,
    } = opening;
    let Pasted {
        decls,
        eqs: mut copied,
    } = pasted;
    eqs.append(&mut copied)?;
    let name = f.name.copy()?;
    let outs = f.outs.copy()?;
    let func = Func::new(name, List::of(decls), f.n_in, outs, List::of(eqs));
    Ok(Whole {
        func,
        origin: List::of(origins),
    })
}
