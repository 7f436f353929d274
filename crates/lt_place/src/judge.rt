// The equations of `main` in order, each judged with all that arose from it.

ghost use Rattle.std.specs.Prelude.{◌≡◌, ◌≤◌, ◌<◌, ◌++◌, length, All, IfOk, IfErr, OnOk};
ghost use Rattle.lt_base.specs.Or.{ForFault};
ghost use Rattle.lt_place_reads.specs.Origins.{HasOrigins, variable_count};
ghost use Rattle.lt_arch.specs.declared.placement.Placement.{Placement};
ghost use Rattle.lt_place.specs.Faults.{IsFirstPlaceFault, judged_variables, main_lefts, main_below};
ghost use Rattle.lt_place.specs.Legal.{Legal};
ghost use Rattle.lt_place.specs.Reports.{reported_fault, IsAssigned};

use crate::PlaceFault;
use crate::marks::marks;
use lt_base::{Equation, Memory, Or};
use lt_norm::Flat;
use lt_place_reads::Look;
use lt_place_reads::view::{equations, inputs, invariant_holds, origins};
use std::alloc::Global;

// Appends the variables of `main` that have equations, in the order of these.
fn push_lefts(order: &mut Vec<u32>, origin: &[u32], equations: &[Equation]) -> Result<(), Memory>
    requires { All (λ q. q.0 < length origin.now) equations.now }
    ensures { OnOk result (order.new.items ≡ order.old.items ++ main_lefts origin.now equations.now) }
{
    for equation in equations {
        let left = equation.left();
        if origin[left as usize] == left {
            order.push(left)?;
        }
    }
    Ok(())
}

// Appends those among the first variables.
fn push_below(order: &mut Vec<u32>, origin: &[u32], bound: u32) -> Result<(), Memory>
    requires { bound ≤ length origin.now }
    ensures { OnOk result (order.new.items ≡ order.old.items ++ main_below origin.now bound) }
{
    for x in 0..bound {
        if origin[x as usize] == x {
            order.push(x)?;
        }
    }
    Ok(())
}

// The variables of `main` as they are judged.
fn main_variables(alloc: Global, f: &Flat) -> Result<Vec<u32>, Memory>
    requires { HasOrigins f.now }
    ensures { IfOk result (λ order. order.items ≡ judged_variables f.now) }
{
    invariant_holds(f);
    let origin = origins(f);
    let mut order = Vec::new(alloc);
    push_lefts(&mut order, origin, equations(f))?;
    push_below(&mut order, origin, inputs(f))?;
    Ok(order)
}

// The first fault at a variable's equation, where these are the lowest variables that it reads on other nodes.
fn fault_at(
    var: u32,
    clock: Option<u32>,
    direct: Option<u32>,
    slow: Option<u32>,
) -> Option<PlaceFault>
    ensures { result ≡ reported_fault var clock direct slow }
{
    if let Some(clock_var) = clock {
        return Some(PlaceFault::ClockElsewhere { var, clock_var });
    }
    if let Some(read) = direct {
        return Some(PlaceFault::DirectCross { reader: var, read });
    }
    if let Some(read) = slow {
        return Some(PlaceFault::SlowCross { reader: var, read });
    }
    None
}

/// Whether the equations fit the nodes of their variables; else the first fault.
pub(crate) fn judge(alloc: Global, f: &Flat, nodes: &[u32]) -> Result<(), Or<PlaceFault>>
    requires origins { HasOrigins f.now }
    requires nodes { length nodes.now ≡ variable_count f.now }
    ensures legal { OnOk result ((p : Placement) → IsAssigned f.now p nodes.now → Legal f.now p) }
    ensures fault { IfErr result (λ e. (p : Placement) → IsAssigned f.now p nodes.now → ForFault e (IsFirstPlaceFault f.now p)) }
{
    invariant_holds(f);
    let clocks = marks(alloc, f, nodes, Look::Clocks)?;
    let direct = marks(alloc, f, nodes, Look::Direct)?;
    let slow = marks(alloc, f, nodes, Look::Slow)?;
    let order = main_variables(alloc, f)?;
    for var in &order {
        let at = *var as usize;
        if let Some(fault) = fault_at(*var, clocks[at], direct[at], slow[at]) {
            return Err(Or::Fault(fault));
        }
    }
    Ok(())
}
