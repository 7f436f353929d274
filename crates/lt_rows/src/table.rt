// A table by which the place of a row is found at once.
ghost use Rattle.std.specs.Prelude.{◌≡◌, ◌<◌, ◌≤◌, ◌^◌, length, Ok, IsTrue, IfOk, IfSome};
ghost use Rattle.lt_arch.specs.declared.limits.TheConstants.{GREATEST_TIME};
ghost use Rattle.lt_arch.specs.Schedule.{IsEventOf};
ghost use Rattle.lt_rows.specs.Events as events;
ghost use Rattle.lt_rows.specs.Written.{IsNodeOf, IsChanOf, IsWritten};

use crate::RowFault;
use crate::finder::Finder;
use crate::places::{chan_at, chan_named, is, is_between, is_of_kind, node_name, node_named};
use crate::print::print_event;
use crate::read::read_by;
use crate::written::{activated, message, time_of_line};
use lt_arch::{Chan, ChanKind, Event, Shape};
use lt_base::{Memory, Name};
use std::alloc::Global;

// The slots for names; how often another sum of names is tried.
const SLOTS: u32 = 1_024;

const TRIES: u32 = 64;

// The slots for rows.
const ROWS: u32 = 16_384;

// The most nodes of a shape for whose channels there is a table.
const MOST_NODES: u32 = 64;

/// Guesses at which numbers the nodes and channels of a shape stand, by their names. A guess is tried against the shape, and
/// where it is wrong the shape is searched; so a table of another shape costs time alone.
#[derive(Drop)]
pub struct PlaceTable {
    // a node or a channel for the mark of each row
    rows: Vec<u32>,
    // what the sum of a name begins with
    seed: u32,
    // a node for each sum
    nodes: Vec<u32>,
    // a channel for each two nodes, of each kind
    data: Vec<u32>,
    acks: Vec<u32>,
    width: u32,
}

impl PlaceTable {
    /// The table of a shape. No reading by it takes memory.
    pub fn new(alloc: Global, shape: &Shape) -> Result<PlaceTable, Memory>
        requires nodes { length shape.now.nodes < 2 ^ 32 }
        requires channels { length shape.now.channels < 2 ^ 32 }
    {
        let width = width_of(shape);
        let mut table = PlaceTable {
            rows: zeros(alloc, ROWS)?,
            seed: 0,
            nodes: zeros(alloc, SLOTS)?,
            data: zeros(alloc, width * width)?,
            acks: zeros(alloc, width * width)?,
            width,
        };
        for seed in 0..TRIES {
            table.seed = seed;
            if table.note_nodes(&shape.nodes) {
                break;
            }
        }
        table.note_channels(&shape.channels);
        note_rows(alloc, &mut table.rows, shape)?;
        Ok(table)
    }

    /// The event of a line, as `read_event` answers it.
    #[inline(always)]
    pub fn read_event(&self, line: &[u8], shape: &Shape) -> Result<Event, RowFault>
        requires nodes { length shape.now.nodes < 2 ^ 32 }
        requires channels { length shape.now.channels < 2 ^ 32 }
        ensures event { result ≡ events.event_of shape.now line.now }
        ensures of_shape { IfOk result (IsEventOf shape.now) }
    {
        match self.event_of_line(line, shape) {
            Some(e) => Ok(e),
            None => read_by(self, line, shape),
        }
    }

    // The event of a line that stands as it is written, where its place is guessed right.
    #[tactic(auto, using(crate::proofs::Found::written_reads))]
    #[inline(always)]
    fn event_of_line(&self, line: &[u8], shape: &Shape) -> Option<Event>
        ensures event { IfSome result (λ e. events.event_of shape.now line.now ≡ Ok e) }
        ensures of_shape { IfSome result (IsEventOf shape.now) }
    {
        let (time, rest) = time_of_line(line)?;
        self.event_at_place(shape, rest, time)
    }

    // The event of a kind and a place.
    #[inline(always)]
    fn event_at_place(&self, shape: &Shape, rest: &[u8], time: u64) -> Option<Event>
        requires { time ≤ GREATEST_TIME }
        ensures { IfSome result (IsWritten shape.now rest.now time) }
    {
        let guess = at(&self.rows, mark(rest));
        if let Some(name) = activated(rest) {
            return Some(Event::Act(tried_node(shape, guess, name)?, time));
        }
        let (kind, ends) = message(rest)?;
        Some(Event::Del(tried_chan(shape, guess, kind, ends)?, time))
    }

    // The node of this name, where it is guessed right.
    fn guessed_node(&self, shape: &Shape, name: &[u8]) -> Option<u32>
        ensures { IfSome result (IsNodeOf shape.now name.now) }
    {
        tried_node(shape, self.node_guess(name), name)
    }

    // The channel of this kind and these ends, where it is guessed right.
    fn guessed_chan(&self, shape: &Shape, kind: ChanKind, ends: &[u8]) -> Option<u32>
        ensures { IfSome result (IsChanOf shape.now kind ends.now) }
    {
        tried_chan(shape, self.chan_guess(kind, ends), kind, ends)
    }
}

impl PlaceTable {
    // Puts each node into the slot of its name, and says whether no two are in one.
    fn note_nodes(&mut self, nodes: &[Name]) -> bool
        requires { length nodes.now < 2 ^ 32 }
    {
        for (node, name) in nodes.iter().enumerate() {
            let slot = slot_of(self.seed, name.as_str().as_bytes());
            put(&mut self.nodes, slot, node as u32);
        }
        for (node, name) in nodes.iter().enumerate() {
            if self.node_guess(name.as_str().as_bytes()) != node as u32 {
                return false;
            }
        }
        true
    }

    // Puts each channel into the square of its kind.
    fn note_channels(&mut self, channels: &[Chan])
        requires { length channels.now < 2 ^ 32 }
    {
        for (chan, ends) in channels.iter().enumerate() {
            let place = place_of(self.width, ends.from, ends.to);
            match ends.kind {
                ChanKind::Data => put(&mut self.data, place, chan as u32),
                ChanKind::Ack => put(&mut self.acks, place, chan as u32),
            }
        }
    }

    fn node_guess(&self, name: &[u8]) -> u32 {
        at(&self.nodes, slot_of(self.seed, name))
    }

    fn chan_guess(&self, kind: ChanKind, ends: &[u8]) -> u32 {
        let (from, to) = slots_of(self.seed, ends);
        let place = place_of(self.width, at(&self.nodes, from), at(&self.nodes, to));
        match kind {
            ChanKind::Data => at(&self.data, place),
            ChanKind::Ack => at(&self.acks, place),
        }
    }
}

impl Finder for PlaceTable {
    #[tactic(auto, using(crate::proofs::Found::node_found))]
    fn find_node(&self, shape: &Shape, name: &[u8]) -> Option<u32> {
        match self.guessed_node(shape, name) {
            Some(node) => Some(node),
            None => node_named(shape, name),
        }
    }

    #[tactic(auto, using(crate::proofs::Found::chan_found))]
    fn find_chan(&self, shape: &Shape, kind: ChanKind, ends: &[u8]) -> Option<u32> {
        match self.guessed_chan(shape, kind, ends) {
            Some(chan) => Some(chan),
            None => chan_named(shape, kind, ends),
        }
    }
}

// This node, where it has this name.
fn tried_node(shape: &Shape, node: u32, name: &[u8]) -> Option<u32>
    ensures { IfSome result (IsNodeOf shape.now name.now) }
{
    if is_node(shape, node, name) {
        Some(node)
    } else {
        None
    }
}

// This channel, where it is of this kind and has these ends.
fn tried_chan(shape: &Shape, chan: u32, kind: ChanKind, ends: &[u8]) -> Option<u32>
    ensures { IfSome result (IsChanOf shape.now kind ends.now) }
{
    if is_chan(shape, chan, kind, ends) {
        Some(chan)
    } else {
        None
    }
}

// Whether the node of this number has this name.
fn is_node(shape: &Shape, node: u32, name: &[u8]) -> bool
    ensures { IsTrue result → IsNodeOf shape.now name.now node }
{
    if node as usize >= shape.nodes.len() {
        return false;
    }
    is(node_name(shape, node), name)
}

// Whether the channel of this number is of this kind and has these ends.
fn is_chan(shape: &Shape, chan: u32, kind: ChanKind, ends: &[u8]) -> bool
    ensures { IsTrue result → IsChanOf shape.now kind ends.now chan }
{
    if chan as usize >= shape.channels.len() {
        return false;
    }
    let own = chan_at(shape, chan);
    is_of_kind(kind, own.kind) && is_between(shape, &own, ends)
}

// Puts each node and each channel into the slot of its row.
fn note_rows(alloc: Global, rows: &mut Vec<u32>, shape: &Shape) -> Result<(), Memory>
    requires nodes { length shape.now.nodes < 2 ^ 32 }
    requires channels { length shape.now.channels < 2 ^ 32 }
{
    for node in 0..shape.nodes.len() as u32 {
        let row = print_event(alloc, &Event::Act(node, 0), shape)?;
        put(rows, mark(behind_time(&row)), node);
    }
    for chan in 0..shape.channels.len() as u32 {
        let row = print_event(alloc, &Event::Del(chan, 0), shape)?;
        put(rows, mark(behind_time(&row)), chan);
    }
    Ok(())
}

// What stands behind the time of a row that ends with its line feed.
fn behind_time(row: &[u8]) -> &[u8] {
    match row {
        [line @ .., _] => match time_of_line(line) {
            Some((_, rest)) => rest,
            None => row,
        },
        [] => row,
    }
}

// The slot of a row, by the first and the last eight bytes of what stands behind its time.
fn mark(rest: &[u8]) -> usize {
    match (rest.first_chunk::<8>(), rest.last_chunk::<8>()) {
        (Some(first), Some(last)) => slot_of_ends(
            u64::from_le_bytes(*first),
            u64::from_le_bytes(*last),
        ),
        _ => short_mark(rest),
    }
}

// The slot of a row of which less than eight bytes stand behind its time, by the first and the last four.
fn short_mark(rest: &[u8]) -> usize {
    match (rest.first_chunk::<4>(), rest.last_chunk::<4>()) {
        (Some(first), Some(last)) => {
            slot_of_ends(
                u64::from(u32::from_le_bytes(*first)),
                u64::from(u32::from_le_bytes(*last)),
            )
        }
        _ => 0,
    }
}

// The first fourteen bits of a sum of both.
fn slot_of_ends(first: u64, last: u64) -> usize {
    let sum = first
        .wrapping_mul(0x9e37_79b9_7f4a_7c15)
        .wrapping_add(last.wrapping_mul(0xc2b2_ae3d_27d4_eb4f));
    (sum / (1 << 50)) as usize
}

fn zeros(alloc: Global, count: u32) -> Result<Vec<u32>, Memory> {
    Ok(vec![in alloc; 0; count as usize]?)
}

// How wide the squares are.
fn width_of(shape: &Shape) -> u32
    ensures { result ≤ 64 }
{
    let nodes = shape.nodes.len();
    if nodes <= MOST_NODES as usize {
        nodes as u32
    } else {
        0
    }
}

// The slot of a name.
fn slot_of(seed: u32, name: &[u8]) -> usize {
    let mut sum = seed;
    for byte in name {
        sum = sum_on(sum, *byte);
    }
    slot(sum)
}

// The slots of the names before and behind the mark in a text of ends.
fn slots_of(seed: u32, ends: &[u8]) -> (usize, usize) {
    let mut from = seed;
    let mut sum = seed;
    for byte in ends {
        if *byte == b'>' {
            from = sum;
            sum = seed;
        } else {
            sum = sum_on(sum, *byte);
        }
    }
    (slot(from), slot(sum))
}

// The sum of a name with one byte more.
fn sum_on(sum: u32, byte: u8) -> u32 {
    (sum ^ u32::from(byte)).wrapping_mul(16_777_619)
}

// The slot of a sum: its first ten bits.
fn slot(sum: u32) -> usize {
    (sum / (1 << 22)) as usize
}

// The place of a pair of nodes in a square.
fn place_of(width: u32, from: u32, to: u32) -> usize {
    from as usize * width as usize + to as usize
}

// Puts a number at a place, if there is one.
fn put(numbers: &mut Vec<u32>, place: usize, number: u32) {
    if place < numbers.len() {
        numbers[place] = number;
    }
}

// The number at a place, or 0.
fn at(numbers: &[u32], place: usize) -> u32 {
    match numbers.get(place) {
        Some(number) => *number,
        None => 0,
    }
}
