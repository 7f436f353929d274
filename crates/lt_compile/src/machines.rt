// The machines of all nodes.
ghost use Rattle.std.specs.Prelude.{◌≡◌, ◌<◌, ◌+◌, length, IfOk, OnOk};
ghost use Rattle.lt_norm.specs.Flat.{Originated};
ghost use Rattle.lt_place.specs.Layout.{IsPlaced};
ghost use Rattle.lt_place.specs.Sizes.{HasCodeRoom};
ghost use Rattle.lt_compile.specs.Ready.{AreReadySoFar, AreCompilable};

use crate::compile_part;
use lt_base::Memory;
use lt_machine::{Machine, Operators, StepMachine};
use lt_place::Layout;
use lt_place::laws::parts_compile;
use std::alloc::Global;

/// The machines of the nodes, in order.
pub(crate) fn each_machine<G: Operators + Copy>(
    alloc: Global,
    layout: &Layout,
    operators: G,
    rows: u32,
) -> Result<Vec<StepMachine<G>>, Memory>
    requires placed { (f : Originated) × IsPlaced f layout.now × HasCodeRoom f.func }
    ensures count { IfOk result (λ machines. length machines.items ≡ length layout.now.nodes) }
    ensures ready { IfOk result (λ machines. AreReadySoFar ⟦<StepMachine<G> as Machine>⟧ layout.now rows machines.items) }
{
    parts_compile();
    let nodes = layout.nodes.len();
    let mut machines = Vec::with_capacity(alloc, nodes)?;
    for _node in 0..nodes {
        add_machine(alloc, layout, operators, rows, &mut machines)?;
    }
    Ok(machines)
}

// Appends the machine of the next node.
fn add_machine<G: Operators + Copy>(
    alloc: Global,
    layout: &Layout,
    operators: G,
    rows: u32,
    machines: &mut Vec<StepMachine<G>>,
) -> Result<(), Memory>
    requires more { length machines.old.items < length layout.now.nodes }
    requires compile { AreCompilable layout.now }
    requires ready { AreReadySoFar ⟦<StepMachine<G> as Machine>⟧ layout.now rows machines.old.items }
    ensures count { OnOk result (length machines.new.items ≡ length machines.old.items + 1) }
    ensures ready { OnOk result (AreReadySoFar ⟦<StepMachine<G> as Machine>⟧ layout.now rows machines.new.items) }
{
    let part = &layout.nodes[machines.len()];
    let machine = compile_part(alloc, &part.flat, operators, rows)?;
    machines.push(machine)?;
    Ok(())
}
