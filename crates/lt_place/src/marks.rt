// The lowest variables that are read on other nodes.

ghost use Rattle.std.specs.Prelude.{◌≡◌, ◌<◌, ◌++◌, ◌∷◌, [], List, length, All, IfOk, slice_index};
ghost use Rattle.lt_place_reads.specs.Origins.{HasOrigins, variable_count};
ghost use Rattle.lt_place_reads.specs.Reads.{looked};
ghost use Rattle.lt_place.specs.Reports.{Report, HasLeast, elsewhere, reports};

use lt_base::Memory;
use lt_norm::Flat;
use lt_place_reads::view::{equations, invariant_holds, origins};
use lt_place_reads::{Look, looked_at};
use std::alloc::Global;

// Notes that the number is read at this variable.
fn mark(marks: &mut Vec<Option<u32>>, at: u32, number: u32)
    requires { at < length marks.old.items }
    ensures same { length marks.new.items ≡ length marks.old.items }
    ensures least { (rs : List Report) → HasLeast marks.old.items rs → HasLeast marks.new.items (rs ++ (at, number) ∷ []) }
{
    let least = match marks[at as usize] {
        Some(other) => other.min(number),
        None => number,
    };
    marks[at as usize] = Some(least);
}

// Notes which of these variables, which x reads, are on another node than x.
fn note(marks: &mut Vec<Option<u32>>, nodes: &[u32], origin: &[u32], x: u32, ys: &[u32])
    requires variable { x < length origin.now }
    requires nodes { length nodes.now ≡ length origin.now }
    requires reads { All (λ y. y < length origin.now) ys.now }
    requires marks { slice_index origin.now x < length marks.old.items }
    ensures same { length marks.new.items ≡ length marks.old.items }
    ensures least { (rs : List Report) → HasLeast marks.old.items rs → HasLeast marks.new.items (rs ++ elsewhere nodes.now origin.now x ys.now) }
{
    for y in ys {
        if nodes[*y as usize] != nodes[x as usize] {
            mark(marks, origin[x as usize], origin[*y as usize]);
        }
    }
}

/// For each variable of `main` the lowest one on another node that is read in this way by an equation that arose from its own.
pub(crate) fn marks(
    alloc: Global,
    f: &Flat,
    nodes: &[u32],
    look: Look,
) -> Result<Vec<Option<u32>>, Memory>
    requires origins { HasOrigins f.now }
    requires nodes { length nodes.now ≡ variable_count f.now }
    ensures size { IfOk result (λ marks. length marks.items ≡ variable_count f.now) }
    ensures least { IfOk result (λ marks. HasLeast marks.items (reports (looked look f.now) nodes.now f.now.origin f.now.func.eqs)) }
{
    let origin = origins(f);
    invariant_holds(f);
    let mut marks = Vec::new(alloc);
    marks.resize(origin.len(), None)?;
    for equation in equations(f) {
        let ys = looked_at(alloc, f, equation, look)?;
        note(&mut marks, nodes, origin, equation.left(), &ys);
    }
    Ok(marks)
}
