// What the part of a node is fed with and what it gives.

ghost use Rattle.std.specs.Prelude.{◌≡◌, ◌<◌, ◌≤◌, ◌^◌, ◌==◌, ℕ, length, map, filter, position, slice_index, unwrap_or, IfOk};
ghost use Rattle.std.specs.List.{All, count_by};
ghost use Rattle.lt_base.specs.Dependence.{has};
ghost use Rattle.lt_base.specs.Meaning.{clock_of};
ghost use Rattle.lt_place.specs.declared.layout.Feed.TheVariants.{Cross};
ghost use Rattle.lt_place.specs.Layout.{part_of, crossing_of};
ghost use Rattle.lt_net_node.specs.Layout.{joins, crossing_place};
ghost use Rattle.lt_c_node.specs.NodeOf.{IsFeedOf, source_of, sources_of, is_output, output_for, outputs_of, given_slot};

use lt_base::{Clock, Decl, List, Memory};
use lt_c_step::{Output, Source};
use lt_norm::Flat;
use lt_place::{Crossing, Feed, Layout, Part};
use std::alloc::Global;

/// The part of a node.
#[tactic(auto, unfolding(lt_place::specs::Layout::part_of))]
pub(crate) fn part_of(layout: &Layout, n: usize) -> &Part
    requires { n < length layout.now.nodes }
    ensures { result.now ≡ part_of layout.now n }
{
    &layout.nodes[n]
}

#[tactic(auto, unfolding(lt_place::specs::Layout::crossing_of))]
fn crossing_of(layout: &Layout, c: u32) -> Crossing
    requires { c < length layout.now.cross }
    ensures { result ≡ crossing_of layout.now c }
{
    layout.cross[c as usize]
}

// How many of these crossings lead from one node to another.
#[tactic(auto, using(lt_c_heads::proofs::Growing::count_most))]
fn count_between(cross: &[Crossing], from: u32, to: u32) -> usize
    ensures is { result ≡ count_by (joins from to) cross.now }
    ensures most { result ≤ length cross.now }
{
    cross
        .iter()
        .filter(|crossing| crossing.from == from && crossing.to == to)
        .count()
}

// The place of a crossing's value in its messages.
#[tactic(auto, unfolding(lt_net_node::specs::Layout::crossing_place))]
fn place_of(layout: &Layout, c: u32, crossing: Crossing) -> u32
    requires there { c < length layout.now.cross }
    requires is { crossing ≡ crossing_of layout.now c }
    ensures { result ≡ crossing_place layout.now c }
{
    let before = &layout.cross[..c as usize];
    count_between(before, crossing.from, crossing.to) as u32
}

fn arrived(layout: &Layout, c: u32) -> Source
    requires { c < length layout.now.cross }
    ensures { (x : ℕ) → result ≡ source_of layout.now x (Cross c) }
{
    let crossing = crossing_of(layout, c);
    Source::Arrived(crossing.from, place_of(layout, c, crossing))
}

fn source_of(layout: &Layout, x: usize, feed: Feed) -> Source
    requires few { x < 2 ^ 32 }
    requires feed { IsFeedOf layout.now feed }
    ensures { result ≡ source_of layout.now x feed }
{
    match feed {
        Feed::Input(_) => Source::Given(x as u32),
        Feed::Cross(c) => arrived(layout, c),
    }
}

/// Where each input of a part comes from.
pub(crate) fn sources_of(
    alloc: Global,
    layout: &Layout,
    feeds: &[Feed],
) -> Result<List<Source>, Memory>
    requires few { length feeds.now < 2 ^ 32 }
    requires feeds { All (IsFeedOf layout.now) feeds.now }
    ensures { IfOk result (λ all. all ≡ sources_of layout.now feeds.now) }
{
    let mut all = List::new(alloc);
    'feeds: for (x, feed) in feeds.iter().enumerate() {
        all.push(source_of(layout, x, *feed))?;
    }
    Ok(all)
}

/// The number at a place, and past the last one 0.
pub(crate) fn number_at(list: &[u32], i: usize) -> u32
    ensures { result ≡ slice_index list.now i }
{
    if i < list.len() { list[i] } else { 0 }
}

// The clock of a declared variable, and of another number the base clock.
fn clock_of(alloc: Global, decls: &[Decl], x: u32) -> Result<Clock, Memory>
    ensures { IfOk result (λ clock. clock ≡ clock_of decls.now x) }
{
    if (x as usize) < decls.len() {
        decls[x as usize].clock.copy()
    } else {
        Ok(Clock::base(alloc))
    }
}

fn output_for(alloc: Global, part: &Part, x: u32) -> Result<Output, Memory>
    ensures { IfOk result (λ o. o ≡ output_for part.now x) }
{
    let guard = clock_of(alloc, &part.flat.func.decls, x)?;
    Ok(Output {
        output_number: x,
        from_slot: x,
        guard,
    })
}

fn is_among(list: &[u32], v: u32) -> bool
    ensures { result ≡ has v list.now }
{
    list.iter().any(|u| v == *u)
}

fn is_output(layout: &Layout, flat: &Flat, x: u32) -> bool
    ensures { result ≡ has (slice_index flat.now.origin x) layout.now.outs }
{
    is_among(&layout.outs, number_at(&flat.origin, x as usize))
}

// Those of these variables that are outputs of the program.
fn outputs_among(
    alloc: Global,
    layout: &Layout,
    part: &Part,
    outs: &[u32],
) -> Result<List<Output>, Memory>
    ensures { IfOk result (λ all. all ≡ map (output_for part.now) (filter (is_output layout.now part.now) outs.now)) }
{
    let mut all = List::new(alloc);
    'outs: for x in outs {
        if is_output(layout, &part.flat, *x) {
            all.push(output_for(alloc, part, *x)?)?;
        }
    }
    Ok(all)
}

/// The outputs of the program that a part gives.
pub(crate) fn outputs_of(
    alloc: Global,
    layout: &Layout,
    part: &Part,
) -> Result<List<Output>, Memory>
    ensures { IfOk result (λ all. all ≡ outputs_of layout.now part.now) }
{
    outputs_among(alloc, layout, part, &part.flat.func.outs)
}

fn position_of(outs: &[u32], v: u32) -> Option<usize>
    ensures { result ≡ position (λ u. u == v) outs.now }
{
    outs.iter().position(|u| *u == v)
}

fn place_among(outs: &[u32], v: u32) -> usize
    ensures { result ≡ unwrap_or (position (λ u. u == v) outs.now) 0 }
{
    position_of(outs, v).unwrap_or(0)
}

/// The number that a variable which a part gives out has there.
pub(crate) fn given_slot(part: &Part, v: u32) -> u32
    ensures { result ≡ given_slot part.now v }
{
    number_at(&part.flat.func.outs, place_among(&part.outs, v))
}
