// Machines of the parts' meaning, to hold beside those of their code.
ghost use Rattle.std.specs.Prelude.{◌≡◌, ◌<◌, ◌+◌, length, IfOk, OnOk};
ghost use Rattle.lt_norm.specs.Flat.{Originated};
ghost use Rattle.lt_place.specs.Layout.{IsPlaced};
ghost use Rattle.lt_place.specs.Sizes.{HasCodeRoom, IsCompilable};
ghost use Rattle.lt_net_bench.specs.Starts.{AreReady};
ghost use Rattle.lt_compile.specs.Ready.{MachineIsReady, AreReadySoFar, AreCompilable};

use lt_base::Memory;
use lt_machine::{Machine, TableMachine};
use lt_norm::Flat;
use lt_place::Layout;
use lt_place::laws::parts_compile;
use std::alloc::Global;

// A machine of a part, with a step for each row.
fn table_of(alloc: Global, flat: &Flat, rows: u32) -> Result<TableMachine, Memory>
    requires { IsCompilable flat.now.func }
    ensures { IfOk result (MachineIsReady ⟦<TableMachine as Machine>⟧ flat.now.func rows) }
{
    TableMachine::start(alloc, flat, rows)
}

// Appends the machine of the next node.
fn add_table(
    alloc: Global,
    layout: &Layout,
    rows: u32,
    machines: &mut Vec<TableMachine>,
) -> Result<(), Memory>
    requires more { length machines.old.items < length layout.now.nodes }
    requires compile { AreCompilable layout.now }
    requires ready { AreReadySoFar ⟦<TableMachine as Machine>⟧ layout.now rows machines.old.items }
    ensures count { OnOk result (length machines.new.items ≡ length machines.old.items + 1) }
    ensures ready { OnOk result (AreReadySoFar ⟦<TableMachine as Machine>⟧ layout.now rows machines.new.items) }
{
    let part = &layout.nodes.as_slice()[machines.len()];
    let machine = table_of(alloc, &part.flat, rows)?;
    machines.push(machine)?;
    Ok(())
}

// The machines of the nodes, in order.
fn each_table(alloc: Global, layout: &Layout, rows: u32) -> Result<Vec<TableMachine>, Memory>
    requires placed { (f : Originated) × IsPlaced f layout.now × HasCodeRoom f.func }
    ensures count { IfOk result (λ machines. length machines.items ≡ length layout.now.nodes) }
    ensures ready { IfOk result (λ machines. AreReadySoFar ⟦<TableMachine as Machine>⟧ layout.now rows machines.items) }
{
    parts_compile();
    let nodes = layout.nodes.len();
    let mut machines = Vec::with_capacity(alloc, nodes)?;
    for _node in 0..nodes {
        add_table(alloc, layout, rows, &mut machines)?;
    }
    Ok(machines)
}

/// A machine for each node that runs its part by the part's meaning, without step code, with a step for each row and none made. Tests hold
/// it beside those of `compile_nodes`.
pub fn table_nodes(alloc: Global, layout: &Layout, rows: u32) -> Result<Vec<TableMachine>, Memory>
    requires placed { (f : Originated) × IsPlaced f layout.now × HasCodeRoom f.func }
    ensures { IfOk result (λ machines. AreReady ⟦<TableMachine as Machine>⟧ layout.now rows machines.items) }
{
    let machines = each_table(alloc, layout, rows)?;
    Ok(machines)
}
