// What crosses from one node to another.

ghost use Rattle.std.specs.Prelude.{◌≡◌, ◌<◌, ◌^◌, ℕ, Some, None, IfOk, length, get_or};
ghost use Rattle.lt_base.specs.Expression.{shape};
ghost use Rattle.lt_base.specs.Program.{VarsBelow};
ghost use Rattle.lt_place_reads.specs.declared.crossing.Crossing.{Crossing};
ghost use Rattle.lt_place_reads.specs.Origins.{variable_count};
ghost use Rattle.lt_place_reads.specs.Crossings.{HasReaders, HasPlaces, cross_of, cross_in};

use crate::Crossing;
use crate::reads::{delay_of, variable_of};
use crate::view::{equations, invariant_holds};
use lt_base::{Equation, Expr, Memory, Value};
use lt_norm::Flat;
use std::alloc::Global;

// The crossing that a delay of this operand is.
fn cross_of(nodes: &[u32], reader: u32, first: Value, operand: &Expr) -> Option<Crossing>
    requires reader { reader < length nodes.now }
    requires inside { VarsBelow (length nodes.now) (shape operand.now) }
    ensures { result ≡ cross_of nodes.now reader first (shape operand.now) }
{
    let var = variable_of(operand)?;
    let from = nodes[var as usize];
    let to = nodes[reader as usize];
    if from == to {
        return None;
    }
    Some(Crossing {
        from,
        to,
        first,
        var,
        reader,
    })
}

// The crossing that an equation is.
fn cross_in(nodes: &[u32], equation: &Equation) -> Option<Crossing>
    requires left { equation.now.0 < length nodes.now }
    requires inside { VarsBelow (length nodes.now) equation.now.1 }
    ensures { result ≡ cross_in nodes.now equation.now.0 equation.now.1 }
{
    match delay_of(equation.right()) {
        Some((first, operand)) => cross_of(nodes, equation.left(), first, operand),
        None => None,
    }
}

/// The crossing that each variable's equation is, where it is one.
pub fn readers(alloc: Global, f: &Flat, nodes: &[u32]) -> Result<Vec<Option<Crossing>>, Memory>
    requires { length nodes.now ≡ variable_count f.now }
    ensures { IfOk result (λ readers. HasReaders f.now nodes.now readers.items) }
{
    invariant_holds(f);
    let mut readers = Vec::new(alloc);
    readers.resize(nodes.len(), None)?;
    for equation in equations(f) {
        readers[equation.left() as usize] = cross_in(nodes, equation);
    }
    Ok(readers)
}

/// The crossings, and for each variable that reads one the place of it.
#[derive(Drop)]
pub struct Crossings {
    pub list: Vec<Crossing>,
    pub places: Vec<Option<u32>>,
}

/// The crossings in order of their readers.
pub fn in_order(alloc: Global, readers: &[Option<Crossing>]) -> Result<Crossings, Memory>
    requires own { (x : ℕ) (c : Crossing) → get_or readers.now x None ≡ Some c → c.reader ≡ x }
    requires room { length readers.now < 2 ^ 32 }
    ensures { IfOk result (λ c. HasPlaces readers.now (length readers.now) c.list.items c.places.items) }
{
    let mut list = Vec::new(alloc);
    let mut places = Vec::with_capacity(alloc, readers.len())?;
    for reader in readers {
        let place = list.len() as u32;
        match reader {
            Some(crossing) => {
                list.push(*crossing)?;
                places.push(Some(place))?;
            }
            None => places.push(None)?,
        }
    }
    Ok(Crossings { list, places })
}
