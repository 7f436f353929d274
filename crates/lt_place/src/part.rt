// The part of one node.

ghost use Rattle.std.specs.Prelude.{◌≡◌, ◌<◌, ◌^◌, All, IfOk, length, map};
ghost use Rattle.lt_norm.specs.Flat.{FlatFunction};
ghost use Rattle.lt_place_reads.specs.Origins.{variable_count};
ghost use Rattle.lt_place.specs.Spread.{HasMembers, IsBuilt, IsLocal, IsSpread, feed_by, feed_of, outs_below, own_of, part_function};

use crate::members::{Members, members_of};
use crate::own::{own_decls, own_equations};
use crate::spread::Spread;
use crate::{Feed, Part};
use lt_base::{Func, List, Memory};
use lt_norm::Flat;
use lt_place_reads::view::{decls, equations, invariant_holds, name};
use std::alloc::Global;

// What feeds the input x: the crossing at its place, where it reads one.
fn feed_by(x: u32, place: Option<u32>) -> Feed
    ensures { result ≡ feed_by x place }
{
    match place {
        Some(place) => Feed::Cross(place),
        None => Feed::Input(x),
    }
}

// What feeds these inputs.
fn feeds(alloc: Global, places: &[Option<u32>], inputs: &[u32]) -> Result<Vec<Feed>, Memory>
    requires { All (λ x. x < length places.now) inputs.now }
    ensures { IfOk result (λ feeds. feeds.items ≡ map (feed_of places.now) inputs.now) }
{
    let mut feeds = Vec::with_capacity(alloc, inputs.len())?;
    for x in inputs {
        feeds.push(feed_by(*x, places[*x as usize]))?;
    }
    Ok(feeds)
}

// The variables of node n that are given out.
fn outs(alloc: Global, nodes: &[u32], given: &[bool], n: u32) -> Result<Vec<u32>, Memory>
    requires given { length given.now ≡ length nodes.now }
    requires room { length nodes.now < 2 ^ 32 }
    ensures { IfOk result (λ outs. outs.items ≡ outs_below nodes.now given.now n (length nodes.now)) }
{
    let mut outs = Vec::new(alloc);
    for (x, node) in nodes.iter().enumerate() {
        if *node == n && given[x] {
            outs.push(x as u32)?;
        }
    }
    Ok(outs)
}

// Their numbers in the part.
fn own_outs(alloc: Global, own: &[u32], outs: &[u32]) -> Result<Vec<u32>, Memory>
    requires { All (λ x. x < length own.now) outs.now }
    ensures { IfOk result (λ r. r.items ≡ map (own_of own.now) outs.now) }
{
    let mut new = Vec::with_capacity(alloc, outs.len())?;
    for x in outs {
        new.push(own[*x as usize])?;
    }
    Ok(new)
}

// The function of a part with these variables, which gives these out.
fn function(
    alloc: Global,
    f: &Flat,
    s: &Spread,
    n: u32,
    m: &Members,
    outs: &[u32],
) -> Result<Func, Memory>
    requires spread { IsSpread f.now s.now }
    requires local { IsLocal f.now s.now.nodes.items }
    requires room { variable_count f.now < 2 ^ 32 }
    requires members { HasMembers s.now.nodes.items s.now.fed.items n m.now.list.items m.now.own.items m.now.inputs }
    requires outs { outs.now ≡ outs_below s.now.nodes.items s.now.given.items n (length s.now.nodes.items) }
    ensures func { IfOk result (λ func. func ≡ part_function f.now s.now n m.now.list.items m.now.own.items m.now.inputs) }
    ensures flat { IfOk result (λ func. FlatFunction func) }
{
    invariant_holds(f);
    let own = m.own.as_slice();
    let name = name(f).copy()?;
    let decls = own_decls(alloc, own, decls(f), &m.list)?;
    let outs = own_outs(alloc, own, outs)?;
    let eqs = own_equations(alloc, own, &s.nodes, &s.fed, n, equations(f))?;
    let inputs = m.inputs as u32;
    let func = Func::new(name, List::of(decls), inputs, List::of(outs), List::of(eqs));
    Ok(func)
}

/// The part of node n.
pub(crate) fn part(alloc: Global, f: &Flat, s: &Spread, n: u32) -> Result<Part, Memory>
    requires spread { IsSpread f.now s.now }
    requires local { IsLocal f.now s.now.nodes.items }
    requires room { variable_count f.now < 2 ^ 32 }
    ensures { IfOk result (λ q. IsBuilt f.now s.now n q) }
{
    let outs = outs(alloc, &s.nodes, &s.given, n)?;
    let members = members_of(alloc, &s.nodes, &s.fed, &s.free, n)?;
    part_of(alloc, f, s, n, members, outs)
}

// The part of node n, whose variables these are, and which gives these out.
fn part_of(
    alloc: Global,
    f: &Flat,
    s: &Spread,
    n: u32,
    m: Members,
    outs: Vec<u32>,
) -> Result<Part, Memory>
    requires spread { IsSpread f.now s.now }
    requires local { IsLocal f.now s.now.nodes.items }
    requires room { variable_count f.now < 2 ^ 32 }
    requires members { HasMembers s.now.nodes.items s.now.fed.items n m.list.items m.own.items m.inputs }
    requires outs { outs.items ≡ outs_below s.now.nodes.items s.now.given.items n (length s.now.nodes.items) }
    ensures { IfOk result (λ q. IsBuilt f.now s.now n q) }
{
    let func = function(alloc, f, s, n, &m, &outs)?;
    let feeds = feeds(alloc, &s.places, &m.list[..m.inputs])?;
    let flat = Flat::new(func, List::of(m.list));
    Ok(Part {
        flat,
        feeds: List::of(feeds),
        outs: List::of(outs),
    })
}
