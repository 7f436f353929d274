// A queue of four deadlines, a watch over two nodes, and copies.
ghost use Rattle.std.specs.Prelude.{◌≡◌, ◌<◌, ◌∷◌, [], None, length, IfOk};
ghost use Rattle.lt_arch.specs.Times.{sent_in};

use crate::fixtures::{quick, two_nodes};
use crate::shown::show_value;
use lt_arch::{Chan, ChanKind, Deadlines, Event, Offence, Protocol, Shape, Timing, Watch};
use lt_base::{List, Memory, Name, Steps};
use std::alloc::Global;
use std::marker::Brand;
use std::sync::ledger::{Blank, Ledger};

fn four_places<L: Ledger>(alloc: Global, blank: Blank) -> Result<[Option<(u64, u32)>; 3], Memory>
    requires name { blank.name ≡ L.name }
    requires parts { blank.parts ≡ L.parts }
    requires some { 0 < blank.parts }
{
    let mut steps = Steps::<L>::new(blank);
    let mut deadlines = Deadlines::start(alloc, 4)?;
    let none = deadlines.first(&mut steps);
    deadlines.set(0, Some(7), &mut steps);
    deadlines.set(1, Some(5), &mut steps);
    deadlines.set(2, Some(5), &mut steps);
    deadlines.set(3, Some(9), &mut steps);
    let first = deadlines.first(&mut steps);
    deadlines.set(1, None, &mut steps);
    Ok([none, first, deadlines.first(&mut steps)])
}

/// The first deadlines: of none, of four, and without the first of these.
pub fn first_deadlines(alloc: Global) -> Result<String, Memory> {
    show_value(alloc, four_places::<Brand>(alloc, Blank::new(1))?)
}

// A channel for data.
fn data(from: u32, to: u32) -> Chan
    ensures { (result.from ≡ from) × (result.to ≡ to) }
{
    Chan {
        from,
        to,
        kind: ChanKind::Data,
    }
}

fn names(alloc: Global) -> Result<List<Name>, Memory>
    ensures { IfOk result (λ names. names ≡ (97 ∷ []) ∷ (98 ∷ []) ∷ []) }
{
    let a = Name::from_str(alloc, "a")?;
    let b = Name::from_str(alloc, "b")?;
    Ok(List::of(vec![in alloc; a, b]?))
}

/// Two nodes that send to each other.
pub fn both_ways(alloc: Global) -> Result<Shape, Memory>
    ensures { IfOk result (λ shape. (length shape.nodes ≡ 2) × (length shape.channels ≡ 2)) }
{
    let nodes = names(alloc)?;
    let channels = List::from_slice(alloc, &[data(0, 1), data(1, 0)])?;
    Ok(Shape { nodes, channels })
}

/// Their timing.
pub fn timing_of_both(alloc: Global) -> Result<Timing, Memory>
    ensures { IfOk result (λ timing. length timing.nodes ≡ 2) }
{
    two_nodes(alloc, quick(3), quick(3), Protocol::TimeBased)
}

// A watch over these nodes, before anything happened.
fn watch_of_two(alloc: Global) -> Result<Watch, Memory>
    ensures { IfOk result (λ watch. (length watch.lasts ≡ 2) × (length watch.sends ≡ 2) × (sent_in watch 0 ≡ None)) }
{
    let shape = both_ways(alloc)?;
    let timing = timing_of_both(alloc)?;
    Watch::start(alloc, &shape, &timing)
}

// What the watch says of deliveries from a to b before anything happened and after both nodes were activated at 10 and a
// sent, and of an event after the end.
fn judge_events<L: Ledger>(alloc: Global, blank: Blank) -> Result<[Option<Offence>; 5], Memory>
    requires name { blank.name ≡ L.name }
    requires parts { blank.parts ≡ L.parts }
    requires some { 0 < blank.parts }
{
    let mut steps = Steps::<L>::new(blank);
    let mut watch = watch_of_two(alloc)?;
    let nothing_sent = watch.judge(&Event::Del(0, 0), &mut steps);
    watch.sent(0, 10, &mut steps);
    watch.acted(0, 10, &mut steps);
    watch.acted(1, 10, &mut steps);
    let too_early = watch.judge(&Event::Del(0, 10), &mut steps);
    let overdue = watch.judge(&Event::Del(0, 15), &mut steps);
    let in_time = watch.judge(&Event::Del(0, 14), &mut steps);
    watch.delivered(0, 14, &mut steps);
    watch.ended(20, &mut steps);
    let after_end = watch.judge(&Event::Act(0, 20), &mut steps);
    Ok([nothing_sent, too_early, overdue, in_time, after_end])
}

/// What a watch says.
pub fn show_watch(alloc: Global) -> Result<String, Memory> {
    show_value(alloc, judge_events::<Brand>(alloc, Blank::new(1))?)
}

/// The channels and the number of nodes of a copied shape.
pub fn copied_shape(alloc: Global) -> Result<String, Memory> {
    let shape = both_ways(alloc)?;
    match shape.copy() {
        Ok(copy) => show_value(alloc, (copy.channels.as_slice(), copy.nodes.len())),
        Err(_) => Err(Memory),
    }
}

/// The numbers of nodes and of pairs of a copied timing, and its greatest delay.
pub fn copied_timing(alloc: Global) -> Result<String, Memory> {
    let timing = timing_of_both(alloc)?;
    match timing.copy() {
        Ok(copy) => show_value(alloc, (copy.nodes.len(), copy.pairs.len(), copy.most)),
        Err(_) => Err(Memory),
    }
}
