// What all parts of a placed function are made from.

ghost use Rattle.std.specs.Prelude.{◌≡◌, ◌<◌, ◌^◌, All, IfOk, length, map, not};
ghost use Rattle.lt_place_reads.specs.Origins.{variable_count};
ghost use Rattle.lt_place.specs.Spread.{HasFed, HasGiven, IsSpread};

use lt_base::Memory;
use lt_norm::Flat;
use lt_place_reads::view::{inputs, invariant_holds, outputs};
use lt_place_reads::{Crossing, Crossings, in_order, readers};
use std::alloc::Global;

/// For each variable its node, whether it is fed, as inputs of `main` and readers of crossings are, or free, the place of the
/// crossing that it reads, and whether it is given out; and the crossings in order of their readers.
#[derive(Drop)]
pub(crate) struct Spread {
    pub nodes: Vec<u32>,
    pub fed: Vec<bool>,
    pub free: Vec<bool>,
    pub places: Vec<Option<u32>>,
    pub given: Vec<bool>,
    pub cross: Vec<Crossing>,
}

// Which variables are fed: the inputs, and those that read a crossing.
fn fed_variables(alloc: Global, n_in: u32, places: &[Option<u32>]) -> Result<Vec<bool>, Memory>
    ensures { IfOk result (λ fed. HasFed n_in places.now fed.items) }
{
    let mut fed = Vec::with_capacity(alloc, places.len())?;
    for (x, place) in places.iter().enumerate() {
        fed.push(x < n_in as usize || place.is_some())?;
    }
    Ok(fed)
}

fn negate_all(alloc: Global, truths: &[bool]) -> Result<Vec<bool>, Memory>
    ensures { IfOk result (λ r. r.items ≡ map not truths.now) }
{
    let mut negated = Vec::with_capacity(alloc, truths.len())?;
    for truth in truths {
        negated.push(!*truth)?;
    }
    Ok(negated)
}

// Which variables are given out: the outputs, and those that cross.
fn given_out(
    alloc: Global,
    variables: usize,
    outs: &[u32],
    cross: &[Crossing],
) -> Result<Vec<bool>, Memory>
    requires outs { All (λ y. y < variables) outs.now }
    requires cross { All (λ c. c.var < variables) cross.now }
    ensures { IfOk result (λ given. HasGiven variables outs.now cross.now given.items) }
{
    let mut given = Vec::new(alloc);
    given.resize(variables, false)?;
    for y in outs {
        given[*y as usize] = true;
    }
    for crossing in cross {
        given[crossing.var as usize] = true;
    }
    Ok(given)
}

/// The tables of a function on these nodes.
pub(crate) fn spread_of(alloc: Global, f: &Flat, nodes: Vec<u32>) -> Result<Spread, Memory>
    requires size { length nodes.items ≡ variable_count f.now }
    requires room { variable_count f.now < 2 ^ 32 }
    ensures spread { IfOk result (λ s. IsSpread f.now s) }
    ensures nodes { IfOk result (λ s. s.nodes.items ≡ nodes.items) }
{
    invariant_holds(f);
    let readers = readers(alloc, f, &nodes)?;
    let Crossings { list, places } = in_order(alloc, &readers)?;
    let fed = fed_variables(alloc, inputs(f), &places)?;
    let free = negate_all(alloc, &fed)?;
    let given = given_out(alloc, nodes.len(), outputs(f), &list)?;
    Ok(Spread {
        nodes,
        fed,
        free,
        places,
        given,
        cross: list,
    })
}
