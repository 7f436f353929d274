// The node of each variable, as a placement lists them.

ghost use Rattle.std.specs.Prelude.{◌≡◌, ℕ, ◌<◌, ◌^◌, List, length, map, IfOk, IfErr, OnOk, MatchOption};
ghost use Rattle.lt_base.specs.Or.{ForFault};
ghost use Rattle.lt_place_reads.specs.Origins.{HasOrigins, variable_count};
ghost use Rattle.lt_place.specs.declared.fault.PlaceFault.TheVariants.{UnknownName};
ghost use Rattle.lt_arch.specs.declared.nodes.NamedNodes.{NamedNodes as Listed};
ghost use Rattle.lt_arch.specs.declared.placement.Placement.TheVariants.{All as OnOne, Named as OnListed};
ghost use Rattle.lt_arch.specs.Placement.{node_names};
ghost use Rattle.lt_place.specs.Nodes.{Listing, listings, listings_from, listings_on, nodes_of, EachKnown};
ghost use Rattle.lt_place.specs.Faults.{AllOnce, IsFirstPlaceFault, IsLowest};
ghost use Rattle.lt_place.specs.Seats.{HasSeats, seats_of, seat_node, IsVacant, IsAgain, is_again, KnowsMain, EachIn, IsFirstOut};

use crate::seats::{Seat, seats};
use crate::{NamedNode, NamedNodes, PlaceFault, Placement};
use indexmap::IndexMap;
use lt_base::{Memory, Name, Or};
use lt_norm::Flat;
use lt_place_reads::view::{decls, origins};
use std::alloc::Global;

// The seat of each variable: that of its origin.
fn seat_each<'a>(
    alloc: Global,
    f: &Flat,
    seats: &IndexMap<&'a str, Seat>,
) -> Result<Vec<Option<Seat>>, Memory>
    requires { HasOrigins f.now }
    ensures { IfOk result (λ each. (ls : List Listing) → HasSeats seats.now ls → each.items ≡ seats_of f.now ls f.now.origin) }
{
    let decls = decls(f);
    let origin = origins(f);
    let mut each = Vec::with_capacity(alloc, origin.len())?;
    for owner in origin {
        let name = decls[*owner as usize].name.as_str();
        each.push(seats.get(name).copied())?;
    }
    Ok(each)
}

// The first variable of `main` without a seat.
fn first_vacant(origin: &[u32], seats: &[Option<Seat>]) -> Option<u32>
    requires same { length seats.now ≡ length origin.now }
    requires room { length origin.now < 2 ^ 32 }
    ensures { MatchOption result ((x : ℕ) → IsVacant origin.now seats.now x → ⊥) (IsLowest (IsVacant origin.now seats.now)) }
{
    for (x, owner) in origin.iter().enumerate() {
        if *owner as usize == x && seats[x].is_none() {
            return Some(x as u32);
        }
    }
    None
}

// Whether a seat is taken again.
fn is_again(seat: Option<Seat>) -> bool
    ensures { result ≡ is_again seat }
{
    match seat {
        Some(seat) => seat.again,
        None => false,
    }
}

// The first variable of `main` with two seats.
fn first_again(origin: &[u32], seats: &[Option<Seat>]) -> Option<u32>
    requires same { length seats.now ≡ length origin.now }
    requires room { length origin.now < 2 ^ 32 }
    ensures { MatchOption result ((x : ℕ) → IsAgain origin.now seats.now x → ⊥) (IsLowest (IsAgain origin.now seats.now)) }
{
    for (x, owner) in origin.iter().enumerate() {
        if *owner as usize == x && is_again(seats[x]) {
            return Some(x as u32);
        }
    }
    None
}

// The nodes of these seats.
fn seat_nodes(alloc: Global, seats: &[Option<Seat>]) -> Result<Vec<u32>, Memory>
    ensures { IfOk result (λ nodes. nodes.items ≡ map seat_node seats.now) }
{
    let mut nodes = Vec::with_capacity(alloc, seats.len())?;
    for seat in seats {
        let node = match seat {
            Some(seat) => seat.node,
            None => 0,
        };
        nodes.push(node)?;
    }
    Ok(nodes)
}

// The names of the variables of `main`.
fn known_names(alloc: Global, f: &Flat) -> Result<IndexMap<&str, u32>, Memory>
    requires origins { HasOrigins f.now }
    requires room { variable_count f.now < 2 ^ 32 }
    ensures { IfOk result (λ known. KnowsMain f.now (variable_count f.now) known) }
{
    let origin = origins(f);
    let mut known = IndexMap::new(alloc);
    for (x, decl) in decls(f).iter().enumerate() {
        if origin[x] as usize == x {
            known.insert(decl.name.as_str(), x as u32)?;
        }
    }
    Ok(known)
}

// The first of these names that is not known.
fn first_out<'n>(known: &IndexMap<&str, u32>, names: &'n [Name]) -> Option<&'n Name>
    ensures { MatchOption result ((n : ℕ) → EachIn known.now (listings_on n names.entry.now))
        (λ name. (n : ℕ) → IsFirstOut known.now (listings_on n names.entry.now) name.now) }
{
    for name in names {
        if !known.contains_key(name.as_str()) {
            return Some(name);
        }
    }
    None
}

// The first name on the lists of these nodes that is not known.
fn first_unknown<'n>(known: &IndexMap<&str, u32>, nodes: &'n [NamedNode]) -> Option<&'n Name>
    ensures { MatchOption result ((n : ℕ) → EachIn known.now (listings_from n nodes.entry.now))
        (λ name. (n : ℕ) → IsFirstOut known.now (listings_from n nodes.entry.now) name.now) }
{
    for node in nodes {
        if let Some(name) = first_out(known, &node.vars) {
            return Some(name);
        }
    }
    None
}

// Every variable on the only node.
fn on_one(alloc: Global, f: &Flat) -> Result<Vec<u32>, Memory>
    ensures { IfOk result (λ nodes. nodes.items ≡ nodes_of f.now OnOne) }
{
    let mut nodes = Vec::new(alloc);
    nodes.resize(origins(f).len(), 0)?;
    Ok(nodes)
}

// The seat of each variable on these lists.
fn listed_seats(alloc: Global, f: &Flat, named: &NamedNodes) -> Result<Vec<Option<Seat>>, Memory>
    requires origins { HasOrigins f.now }
    requires nodes { length named.now.nodes < 2 ^ 32 }
    ensures { IfOk result (λ each. each.items ≡ seats_of f.now (listings (OnListed named.now)) f.now.origin) }
{
    let seats = seats(alloc, &named.nodes)?;
    let each = seat_each(alloc, f, &seats);
    drop(seats);
    each
}

// Passes where each variable of `main` has one seat. Else the first that has none, and if each has one, the first that has two.
fn seat_once(f: &Flat, each: &[Option<Seat>]) -> Result<(), PlaceFault>
    requires origins { HasOrigins f.now }
    requires variables { variable_count f.now < 2 ^ 32 }
    requires size { length each.now ≡ length f.now.origin }
    ensures once { (named : Listed) → each.now ≡ seats_of f.now (listings (OnListed named)) f.now.origin
        → OnOk result (AllOnce f.now (OnListed named)) }
    ensures fault { (named : Listed) → each.now ≡ seats_of f.now (listings (OnListed named)) f.now.origin
        → IfErr result (IsFirstPlaceFault f.now (OnListed named)) }
{
    let origin = origins(f);
    if let Some(var) = first_vacant(origin, each) {
        return Err(PlaceFault::Unplaced { var });
    }
    if let Some(var) = first_again(origin, each) {
        return Err(PlaceFault::PlacedTwice { var });
    }
    Ok(())
}

// The fault of this name, which is none of a variable of `main`.
fn unknown_name(name: &Name) -> Or<PlaceFault>
    ensures { ForFault result (λ fault. fault ≡ UnknownName name.now) }
{
    match name.copy() {
        Ok(name) => Or::Fault(PlaceFault::UnknownName { name }),
        Err(_) => Or::Memory,
    }
}

// Passes where each listed name is that of a variable of `main`. Else the first that is not.
fn know_all(alloc: Global, f: &Flat, named: &NamedNodes) -> Result<(), Or<PlaceFault>>
    requires origins { HasOrigins f.now }
    requires variables { variable_count f.now < 2 ^ 32 }
    ensures known { OnOk result (EachKnown f.now (listings (OnListed named.now))) }
    ensures fault { AllOnce f.now (OnListed named.now) → IfErr result (λ e. ForFault e (IsFirstPlaceFault f.now (OnListed named.now))) }
{
    let known = known_names(alloc, f)?;
    let unknown = first_unknown(&known, &named.nodes);
    drop(known);
    match unknown {
        Some(name) => Err(unknown_name(name)),
        None => Ok(()),
    }
}

// Every variable on the node that lists its origin.
fn on_listed(alloc: Global, f: &Flat, named: &NamedNodes) -> Result<Vec<u32>, Or<PlaceFault>>
    requires origins { HasOrigins f.now }
    requires variables { variable_count f.now < 2 ^ 32 }
    requires nodes { length named.now.nodes < 2 ^ 32 }
    ensures nodes { IfOk result (λ nodes. nodes.items ≡ nodes_of f.now (OnListed named.now)) }
    ensures once { OnOk result (AllOnce f.now (OnListed named.now)) }
    ensures known { OnOk result (EachKnown f.now (listings (OnListed named.now))) }
    ensures fault { IfErr result (λ e. ForFault e (IsFirstPlaceFault f.now (OnListed named.now))) }
{
    let each = listed_seats(alloc, f, named)?;
    if let Err(fault) = seat_once(f, &each) {
        return Err(Or::Fault(fault));
    }
    know_all(alloc, f, named)?;
    let nodes = seat_nodes(alloc, &each)?;
    Ok(nodes)
}

/// The node of each variable, or the first fault of the placement's lists: a variable of `main` that none has, one that is listed
/// twice, or a listed name that is none of a variable of `main`.
pub(crate) fn assign(alloc: Global, f: &Flat, p: &Placement) -> Result<Vec<u32>, Or<PlaceFault>>
    requires origins { HasOrigins f.now }
    requires variables { variable_count f.now < 2 ^ 32 }
    requires nodes { length (node_names p.now) < 2 ^ 32 }
    ensures nodes { IfOk result (λ nodes. nodes.items ≡ nodes_of f.now p.now) }
    ensures once { OnOk result (AllOnce f.now p.now) }
    ensures known { OnOk result (EachKnown f.now (listings p.now)) }
    ensures fault { IfErr result (λ e. ForFault e (IsFirstPlaceFault f.now p.now)) }
{
    match p {
        Placement::All => Ok(on_one(alloc, f)?),
        Placement::Named(named) => on_listed(alloc, f, named),
    }
}
