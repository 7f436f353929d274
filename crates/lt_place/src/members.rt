// The variables of a node and their numbers there.

ghost use Rattle.std.specs.Prelude.{◌≡◌, ◌+◌, ◌<◌, ◌^◌, IfOk, OnOk, count_by, length, map, not, vec_len};
ghost use Rattle.lt_place.specs.Spread.{Added, HasMembers, NonePicked, Numbered};

use lt_base::Memory;
use std::alloc::Global;

/// The variables of a node in the order of its part, the number of those that are fed, which come first, and the number that each
/// variable of the node has in the part.
#[derive(Drop)]
pub(crate) struct Members {
    pub list: Vec<u32>,
    pub inputs: usize,
    pub own: Vec<u32>,
}

// Numbers those variables of node n that are picked, after those so far.
fn add(
    members: &mut Vec<u32>,
    own: &mut Vec<u32>,
    nodes: &[u32],
    picked: &[bool],
    n: u32,
) -> Result<(), Memory>
    requires picked { length picked.now ≡ length nodes.now }
    requires bound { length nodes.now < 2 ^ 32 }
    requires room { vec_len members.old + count_by (λ b. b) picked.now < 2 ^ 32 }
    requires numbered { Numbered nodes.now n members.old.items own.old.items }
    requires others { NonePicked picked.now members.old.items }
    ensures { OnOk result (Added nodes.now picked.now n (length nodes.now) members.old.items own.old.items members.new.items own.new.items) }
{
    for (x, node) in nodes.iter().enumerate() {
        if *node == n && picked[x] {
            own[x] = members.len() as u32;
            members.push(x as u32)?;
        }
    }
    Ok(())
}

/// The variables of node n, those that are fed before those that are free.
pub(crate) fn members_of(
    alloc: Global,
    nodes: &[u32],
    fed: &[bool],
    free: &[bool],
    n: u32,
) -> Result<Members, Memory>
    requires fed { length fed.now ≡ length nodes.now }
    requires free { free.now ≡ map not fed.now }
    requires room { length nodes.now < 2 ^ 32 }
    ensures { IfOk result (λ m. HasMembers nodes.now fed.now n m.list.items m.own.items m.inputs) }
{
    let mut list = Vec::new(alloc);
    let mut own = Vec::new(alloc);
    own.resize(nodes.len(), 0)?;
    add(&mut list, &mut own, nodes, fed, n)?;
    let inputs = list.len();
    add(&mut list, &mut own, nodes, free, n)?;
    Ok(Members { list, inputs, own })
}
