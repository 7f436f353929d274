// A program on two nodes: x and u on node a, v on node b.
ghost use Rattle.std.specs.Prelude.{◌≡◌, IfOk, length};
ghost use Rattle.lt_arch.specs.Placement.{node_names};

use crate::answers::tell_value;
use lt_base::{List, Memory, Name};
use lt_front::Checked;
use lt_place::{Layout, NamedNode, NamedNodes, Placement, place};
use std::alloc::Global;

fn names(alloc: Global, texts: &[&str]) -> Result<List<Name>, Memory> {
    let mut names = List::new(alloc);
    for text in texts {
        names.push(Name::from_str(alloc, text)?)?;
    }
    Ok(names)
}

fn node(alloc: Global, name: &str, on_it: &[&str]) -> Result<NamedNode, Memory>
    ensures { IfOk result (λ n. n.name ≡ name.now) }
{
    Ok(NamedNode {
        name: Name::from_str(alloc, name)?,
        vars: names(alloc, on_it)?,
    })
}

fn two_nodes(alloc: Global) -> Result<Placement, Memory>
    ensures { IfOk result (λ p. length (node_names p) ≡ 2) }
{
    let a = node(alloc, "a", ["x", "u"].as_slice())?;
    let b = node(alloc, "b", ["v"].as_slice())?;
    let nodes = List::of(vec![in alloc; a, b]?);
    Ok(Placement::Named(NamedNodes { nodes }))
}

/// Tells something of a program on both nodes, by copies of the placement and of the layout.
pub fn tell_layout(
    alloc: Global,
    line: &mut String,
    checked: &Checked,
    what: &str,
) -> Result<(), Memory> {
    match two_nodes(alloc) {
        Ok(placement) => {
            let told = tell_by_copy(alloc, line, checked, &placement, what);
            drop(placement);
            told
        }
        Err(_) => Err(Memory),
    }
}

fn tell_by_copy(
    alloc: Global,
    line: &mut String,
    checked: &Checked,
    placement: &Placement,
    what: &str,
) -> Result<(), Memory>
    requires { length (node_names placement.now) ≡ 2 }
{
    match placement.copy() {
        Ok(copy) => {
            let told = tell_placed(alloc, line, checked, &copy, what);
            drop(copy);
            told
        }
        Err(_) => Err(Memory),
    }
}

fn tell_placed(
    alloc: Global,
    line: &mut String,
    checked: &Checked,
    placement: &Placement,
    what: &str,
) -> Result<(), Memory>
    requires { length (node_names placement.now) ≡ 2 }
{
    checked.invariant_holds();
    match place(alloc, &checked.flat, placement) {
        Ok(layout) => {
            let told = tell_copy(line, &layout, what);
            drop(layout);
            told
        }
        Err(_) => Err(Memory),
    }
}

fn tell_copy(line: &mut String, layout: &Layout, what: &str) -> Result<(), Memory> {
    match layout.copy() {
        Ok(copy) => {
            let told = tell(line, &copy, what);
            drop(copy);
            told
        }
        Err(_) => Err(Memory),
    }
}

fn tell(line: &mut String, layout: &Layout, what: &str) -> Result<(), Memory> {
    if what == "nodes" {
        return tell_value(line, layout.names.len());
    }
    if what == "outputs" {
        return tell_value(line, layout.outs.as_slice());
    }
    if what == "crossings" {
        return tell_value(line, layout.cross.as_slice());
    }
    if what == "feeds" {
        return tell_feeds(line, layout);
    }
    if what == "outs" {
        return tell_outs(line, layout);
    }
    Err(Memory)
}

// What the inputs of each part are.
fn tell_feeds(line: &mut String, layout: &Layout) -> Result<(), Memory> {
    for part in layout.nodes.as_slice() {
        tell_value(line, part.feeds.as_slice())?;
    }
    Ok(())
}

// What each part gives out.
fn tell_outs(line: &mut String, layout: &Layout) -> Result<(), Memory> {
    for part in layout.nodes.as_slice() {
        tell_value(line, part.outs.as_slice())?;
    }
    Ok(())
}
