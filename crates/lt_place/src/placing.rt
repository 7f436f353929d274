// Placement.

ghost use Rattle.std.specs.Prelude.{◌≡◌, ◌<◌, ◌^◌, [], IfOk, IfErr, OnOk, length};
ghost use Rattle.lt_base.specs.Or.{ForFault};
ghost use Rattle.lt_base.specs.Typing.{TypedFunction};
ghost use Rattle.lt_base.specs.Clocking.{ClockedFunction};
ghost use Rattle.lt_base.specs.Dependence.{Causal};
ghost use Rattle.lt_place_reads.specs.Origins.{HasOrigins, variable_count};
ghost use Rattle.lt_arch.specs.Placement.{node_names};
ghost use Rattle.lt_place.specs.Nodes.{nodes_of};
ghost use Rattle.lt_place.specs.Legal.{Legal};
ghost use Rattle.lt_place.specs.Faults.{IsFirstPlaceFault};
ghost use Rattle.lt_place.specs.Layout.{IsLayoutOf, IsPlaced};
ghost use Rattle.lt_place.specs.Spread.{AllBuilt, IsSpread, IsLocal};

use crate::assign::assign;
use crate::judge::judge;
use crate::part::part;
use crate::spread::{Spread, spread_of};
use crate::{Layout, Part, PlaceFault, Placement};
use lt_base::{List, Memory, Or};
use lt_norm::Flat;
use lt_place_reads::view::{invariant_holds, outputs};
use std::alloc::Global;

// The parts of the first nodes.
fn parts(alloc: Global, f: &Flat, s: &Spread, nodes: u32) -> Result<Vec<Part>, Memory>
    requires spread { IsSpread f.now s.now }
    requires local { IsLocal f.now s.now.nodes.items }
    requires room { variable_count f.now < 2 ^ 32 }
    ensures size { IfOk result (λ parts. length parts.items ≡ nodes) }
    ensures built { IfOk result (λ parts. AllBuilt f.now s.now parts.items) }
{
    let mut parts = Vec::with_capacity(alloc, nodes as usize)?;
    for n in 0..nodes {
        parts.push(part(alloc, f, s, n)?)?;
    }
    Ok(parts)
}

// The layout of a function whose variables are on these nodes.
fn layout(alloc: Global, f: &Flat, p: &Placement, nodes: Vec<u32>) -> Result<Layout, Memory>
    requires typed { TypedFunction [] f.now.func }
    requires clocked { ClockedFunction [] f.now.func }
    requires causal { Causal f.now.func }
    requires origins { HasOrigins f.now }
    requires variables { variable_count f.now < 2 ^ 32 }
    requires names { length (node_names p.now) < 2 ^ 32 }
    requires nodes { nodes.items ≡ nodes_of f.now p.now }
    requires legal { Legal f.now p.now }
    ensures layout { IfOk result (λ l. IsLayoutOf f.now p.now l) }
    ensures placed { IfOk result (λ l. IsPlaced f.now l) }
{
    invariant_holds(f);
    let names = p.names(alloc)?;
    let s = spread_of(alloc, f, nodes)?;
    let nodes = parts(alloc, f, &s, names.len() as u32)?;
    let outs = List::from_slice(alloc, outputs(f))?;
    Ok(Layout {
        names,
        nodes: List::of(nodes),
        cross: List::of(s.cross),
        outs,
    })
}

// The node of each variable, or the first fault.
fn locate_nodes(alloc: Global, f: &Flat, p: &Placement) -> Result<Vec<u32>, Or<PlaceFault>>
    requires origins { HasOrigins f.now }
    requires variables { variable_count f.now < 2 ^ 32 }
    requires nodes { length (node_names p.now) < 2 ^ 32 }
    ensures nodes { IfOk result (λ nodes. nodes.items ≡ nodes_of f.now p.now) }
    ensures legal { OnOk result (Legal f.now p.now) }
    ensures first { IfErr result (λ e. ForFault e (IsFirstPlaceFault f.now p.now)) }
{
    let nodes = assign(alloc, f, p)?;
    judge(alloc, f, &nodes)?;
    Ok(nodes)
}

/// The node of each variable, where every variable is on exactly one node, a variable of another node is read only as the whole of
/// what a delay on the base clock delays, and the variables of a clock are on the node of the variable that has it. Else the first
/// fault: a variable of `main` on no node, one that is listed twice, a listed name that is none of a variable of `main`, each the
/// lowest or first; then, equation by equation of `main`, a clock variable elsewhere, a variable that is read otherwise, and one that
/// is read by a delay on another clock, each the lowest.
pub fn legal_nodes(alloc: Global, f: &Flat, p: &Placement) -> Result<Vec<u32>, Or<PlaceFault>>
    requires origins { HasOrigins f.now }
    requires variables { variable_count f.now < 2 ^ 32 }
    requires nodes { length (node_names p.now) < 2 ^ 32 }
    ensures nodes { IfOk result (λ nodes. nodes.items ≡ nodes_of f.now p.now) }
    ensures legal { OnOk result (Legal f.now p.now) }
    ensures first { IfErr result (λ e. ForFault e (IsFirstPlaceFault f.now p.now)) }
    ensures refused { IfErr result (λ e. ForFault e (λ fault. Legal f.now p.now → ⊥)) }
{
    invariant_holds(f);
    locate_nodes(alloc, f, p)
}

/// The function on the nodes of the placement, where it is legal. Else the first fault, as `legal_nodes` answers it.
pub fn place(alloc: Global, f: &Flat, p: &Placement) -> Result<Layout, Or<PlaceFault>>
    requires typed { TypedFunction [] f.now.func }
    requires clocked { ClockedFunction [] f.now.func }
    requires causal { Causal f.now.func }
    requires origins { HasOrigins f.now }
    requires variables { variable_count f.now < 2 ^ 32 }
    requires nodes { length (node_names p.now) < 2 ^ 32 }
    ensures legal { OnOk result (Legal f.now p.now) }
    ensures layout { IfOk result (λ l. IsLayoutOf f.now p.now l) }
    ensures placed { IfOk result (λ l. IsPlaced f.now l) }
    ensures first { IfErr result (λ e. ForFault e (IsFirstPlaceFault f.now p.now)) }
    ensures refused { IfErr result (λ e. ForFault e (λ fault. Legal f.now p.now → ⊥)) }
{
    let nodes = legal_nodes(alloc, f, p)?;
    let layout = layout(alloc, f, p, nodes)?;
    Ok(layout)
}
