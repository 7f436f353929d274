// The order of a function's equations, or a cycle.

ghost use Rattle.std.specs.Prelude.{◌≡◌, ◌<◌, ◌^◌, Err, IfOk, IfErr, OnOk, length};
ghost use Rattle.lt_base.specs.declared.memory.Or.TheVariants.{Fault as OrFault, Memory as OrMemory};
ghost use Rattle.lt_base.specs.Order.{Ordered};
ghost use Rattle.lt_base.specs.Dependence.{Depends, Causal};
ghost use Rattle.lt_cause.specs.Tables.{Sorts};
ghost use Rattle.lt_cause.specs.Orders.{IsOrder, IsLeastCycle, order_place};

use crate::circling::{circle, returns};
use crate::dependence::{dependencies, equation_numbers};
use crate::sorting::topological_order;
use lt_base::{Func, List, Memory, Or};
use lt_graph::components;
use std::alloc::Global;

/// The numbers of a function's equations, each after those of the variables that its own variable depends on.
#[derive(Drop)]
pub struct Order {
    pub eqs: List<u32>,
}

/// Variables of which each depends on the next, and the last on the first.
#[derive(Drop)]
pub struct Cycle {
    pub vars: List<u32>,
}

/// The equations in the order of their variables.
fn equations_in(alloc: Global, f: &Func, order: &Vec<u32>) -> Result<List<u32>, Memory>
    requires equations { length f.now.eqs < 2 ^ 32 }
    requires sorts { Sorts (Depends f.now) (length f.now.decls) order.now.items }
    ensures { IfOk result (IsOrder f.now) }
{
    f.invariant_holds();
    let numbers = equation_numbers(alloc, f)?;
    let mut eqs = List::new(alloc);
    for x in order {
        let Some(number) = numbers[*x as usize] else {
            continue;
        };
        eqs.push(number)?;
    }
    Ok(eqs)
}

/// An order of a function's equations, or a cycle where there is none.
pub fn causal(alloc: Global, f: &Func) -> Result<Order, Or<Cycle>>
    requires variables { length f.now.decls < 2 ^ 32 }
    requires equations { length f.now.eqs < 2 ^ 32 }
    ensures causal { OnOk result (Causal f.now) }
    ensures order { IfOk result (λ order. IsOrder f.now order.eqs) }
    ensures places { IfOk result (λ order. Ordered f.now (order_place f.now order.eqs)) }
    ensures acyclic { Causal f.now → IfErr result (λ e. e ≡ OrMemory) }
    ensures cycle { (cycle : Cycle) → result ≡ Err (OrFault cycle) → IsLeastCycle f.now cycle.vars }
{
    let table = dependencies(alloc, f)?;
    if let Some(order) = topological_order(alloc, &table)? {
        let eqs = equations_in(alloc, f, &order)?;
        return Ok(Order { eqs });
    }
    let names = components(alloc, &table)?;
    for variable in 0..table.len() as u32 {
        if !returns(&table, &names, variable) {
            continue;
        }
        if let Some(walk) = circle(alloc, &table, variable)? {
            return Err(Or::Fault(Cycle {
                vars: List::of(walk),
            }));
        }
    }
    unreachable!()
}

/// An order of a causal function's equations.
pub fn order_of(alloc: Global, f: &Func) -> Result<Order, Memory>
    requires causal { Causal f.now }
    requires variables { length f.now.decls < 2 ^ 32 }
    requires equations { length f.now.eqs < 2 ^ 32 }
    ensures order { IfOk result (λ order. IsOrder f.now order.eqs) }
    ensures places { IfOk result (λ order. Ordered f.now (order_place f.now order.eqs)) }
{
    match causal(alloc, f) {
        Ok(order) => Ok(order),
        Err(Or::Memory) => Err(Memory),
        Err(Or::Fault(_)) => unreachable!(),
    }
}
