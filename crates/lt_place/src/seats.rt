// The names on the lists of the nodes of a setup.

ghost use Rattle.std.specs.Prelude.{◌++◌, ◌<◌, ◌^◌, ◌∷◌, [], List, length, IfOk, OnOk};
ghost use Rattle.lt_place.specs.Nodes.{Listing, listings_from, listings_on};
ghost use Rattle.lt_place.specs.Seats.{HasSeats};

use crate::NamedNode;
use indexmap::IndexMap;
use lt_base::{Memory, Name};
use std::alloc::Global;

/// Where a name is listed: the node on whose list it stands first, and whether it is listed again.
#[derive(Clone, Copy)]
pub(crate) struct Seat {
    pub node: u32,
    pub again: bool,
}

// Notes that the name is on the list of the node.
fn put<'a>(seats: &mut IndexMap<&'a str, Seat>, name: &'a str, node: u32) -> Result<(), Memory>
    ensures { OnOk result ((ls : List Listing) → HasSeats seats.old ls → HasSeats seats.new (ls ++ (name.entry.now, node) ∷ [])) }
{
    let seat = match seats.get(name) {
        Some(seat) => Seat {
            node: seat.node,
            again: true,
        },
        None => Seat { node, again: false },
    };
    seats.insert(name, seat)?;
    Ok(())
}

// Notes the names of the list of a node.
fn put_list<'a>(
    seats: &mut IndexMap<&'a str, Seat>,
    names: &'a [Name],
    node: u32,
) -> Result<(), Memory>
    ensures { OnOk result ((ls : List Listing) → HasSeats seats.old ls → HasSeats seats.new (ls ++ listings_on node names.entry.now)) }
{
    for name in names {
        put(seats, name.as_str(), node)?;
    }
    Ok(())
}

/// Where each name is listed on these nodes.
pub(crate) fn seats<'a>(
    alloc: Global,
    nodes: &'a [NamedNode],
) -> Result<IndexMap<&'a str, Seat>, Memory>
    requires { length nodes.now < 2 ^ 32 }
    ensures { IfOk result (λ seats. HasSeats seats (listings_from 0 nodes.entry.now)) }
{
    let mut seats = IndexMap::new(alloc);
    for (n, node) in nodes.iter().enumerate() {
        put_list(&mut seats, &node.vars, n as u32)?;
    }
    Ok(seats)
}
