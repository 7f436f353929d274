// Clocks.

ghost use Rattle.std.specs.Prelude.{◌≡◌, ◌<◌, ◌⊎◌, ◌^◌, ℕ, Ok, Err, Some, All, IfOk, OnOk, length, MatchOption, MatchResult};
ghost use Rattle.lt_base.specs.declared.memory.Or.TheVariants.{Fault as OrFault, Memory as OrMemory};
ghost use Rattle.lt_base.specs.Or.{ForFault};
ghost use Rattle.lt_base.specs.Program.{GoodFunction};
ghost use Rattle.lt_base.specs.Meaning.{clock_of};
ghost use Rattle.lt_base.specs.Clocking.{ClockedFunction, ClockedProgram};
ghost use Rattle.lt_check.specs.Places.{FirstDeclaration};
ghost use Rattle.lt_check.specs.ClockFaults.{GoodClock, IsClockFaultIn, IsFirstClockFault};

use crate::innermost::{innermost_of, is_at, is_well_formed, links};
use lt_base::{Clock, Func, List, Memory, Or, Program};
use std::alloc::Global;

/// The first fault of clocks.
#[derive(Drop)]
pub struct ClockFault {
    /// The number of the function.
    pub func: u32,
    /// The variable whose clock or equation is at fault.
    pub var: u32,
    /// The variable's declared clock.
    pub want: Clock,
    /// The number of the equation, and none where the declared clock is ill formed.
    pub at: Option<u32>,
}

/// The first variable whose declared clock is ill formed.
pub(crate) fn ill_formed(alloc: Global, f: &Func) -> Result<Option<u32>, Memory>
    requires { length f.now.decls < 2 ^ 32 }
    ensures { IfOk result (λ r. MatchOption r ((x : ℕ) → x < length f.now.decls → GoodClock f.now.decls x) (FirstDeclaration (GoodClock f.now.decls) f.now)) }
{
    let linked = links(alloc, &f.decls)?;
    for variable in 0..f.decls.len() as u32 {
        if !is_well_formed(&f.decls, &linked, variable) {
            return Ok(Some(variable));
        }
    }
    Ok(None)
}

/// A fault, with the variable's declared clock.
fn fault_at(f: &Func, func: u32, var: u32, at: Option<u32>) -> Result<ClockFault, Memory>
    requires { var < length f.now.decls }
    ensures { IfOk result (λ fault. fault ≡ record { func = func; var = var; want = clock_of f.now.decls var; at = at }) }
{
    let want = f.decls[var as usize].clock.copy()?;
    Ok(ClockFault {
        func,
        var,
        want,
        at,
    })
}

/// The first fault of a function's clocks.
fn function_clocks(
    alloc: Global,
    funcs: &List<Func>,
    number: u32,
    f: &Func,
) -> Result<(), Or<ClockFault>>
    requires functions { All GoodFunction funcs.now }
    requires variables { length f.now.decls < 2 ^ 32 }
    requires equations { length f.now.eqs < 2 ^ 32 }
    ensures { MatchResult result (λ _. ClockedFunction funcs.now f.now)
        (λ e. ForFault e (λ fault. (fault.func ≡ number) × IsClockFaultIn funcs.now f.now fault)) }
{
    if let Some(variable) = ill_formed(alloc, f)? {
        return Err(Or::Fault(fault_at(f, number, variable, None)?));
    }
    for (k, equation) in f.eqs.iter().enumerate() {
        let left = equation.left();
        if !is_at(
            funcs,
            &f.decls,
            equation.right(),
            innermost_of(&f.decls, left),
        ) {
            return Err(Or::Fault(fault_at(f, number, left, Some(k as u32))?));
        }
    }
    Ok(())
}

/// The clocks of a program.
pub fn clocks(alloc: Global, p: &Program) -> Result<(), Or<ClockFault>>
    requires functions { length p.now.funcs < 2 ^ 32 }
    requires variables { All (λ f. length f.decls < 2 ^ 32) p.now.funcs }
    requires equations { All (λ f. length f.eqs < 2 ^ 32) p.now.funcs }
    ensures ok { OnOk result (ClockedProgram p.now) }
    ensures clocked { ClockedProgram p.now → (result ≡ Ok tt) ⊎ (result ≡ Err OrMemory) }
    ensures fault { (fault : ClockFault) → result ≡ Err (OrFault fault) → IsFirstClockFault p.now fault }
    ensures first { (fault : ClockFault) → IsFirstClockFault p.now fault → (result ≡ Err (OrFault fault)) ⊎ (result ≡ Err OrMemory) }
{
    for (number, f) in p.funcs.iter().enumerate() {
        function_clocks(alloc, &p.funcs, number as u32, f)?;
    }
    Ok(())
}
