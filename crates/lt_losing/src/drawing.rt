// A list of events that is being drawn where links lose messages.
ghost use Rattle.std.specs.Prelude.{◌≡◌, ◌<◌, ◌≤◌, ◌+◌, ◌-◌, ◌*◌, ◌^◌, ◌%◌, ◌&&◌, ℕ, [], nat_lt, Bool, Some, IfOk, OnOk, length, replicate, slice_index_or, if◌then◌else◌};
ghost use Rattle.rand_core.specs.Stream.{next_u64};
ghost use Rattle.rand_core.specs.Steps.{stream_of};
ghost use Rattle.rand_xoshiro.specs.SplitMix64.{splitmix_steps};
ghost use Rattle.lt_arch.specs.declared.limits.TheConstants.{GREATEST_TIME};
ghost use Rattle.lt_arch.specs.declared.shape.Shape.{Shape as OfShape};
ghost use Rattle.lt_arch.specs.declared.timing.Timing.{Timing as OfTiming};
ghost use Rattle.lt_arch.specs.Readers.{chan_count, node_count};
ghost use Rattle.lt_arch.specs.Shapes.{HaveSameNodes};
ghost use Rattle.lt_arch.specs.State.{unsent};
ghost use Rattle.lt_sim.specs.Words.{left_after};
ghost use Rattle.lt_sim.specs.Standing.{unless_later};
ghost use Rattle.lt_losing.specs.Losing.{LossyDraw, lossy_beginning, lossy_activated, lossy_drawn_on, due_lossy_event, next_lossy_due};
ghost use Rattle.lt_losing.specs.Bounds.{IsUpcoming};
ghost use Rattle.lt_losing.specs.Held.{HoldsAll, TakesOldest, LossyDrawingStands, IsLossyDue, HasFirstTimes, oldest_or_0, phase_when};

use crate::fresh::wake;
use crate::pending::{first_activation, first_arrival};
use crate::queue::Queue;
use crate::sending::send;
use crate::words::is_below;
use lt_arch::{Event, Shape, Timing};
use lt_base::Memory;
use lt_lossy::LossyEvent;
use lt_sim::words::{draw, generator_of};
use rand_xoshiro::SplitMix64;
use std::alloc::Global;

/// The words that are left, when each node is activated next and what it has executed, and what is in transit on each channel.
#[derive(Drop)]
pub struct LossyDrawing {
    pub generator: SplitMix64,
    pub activations: Vec<u64>,
    // whether each node has executed an instant that it has not sent, and how many it has executed
    pub ready: Vec<bool>,
    pub executed: Vec<u32>,
    // the number of the newest message that each channel delivered, and how many it lost since
    pub newest: Vec<u64>,
    pub losses: Vec<u64>,
    // the numbers of the messages in transit on each channel, and when they arrive
    pub numbers: Vec<Queue>,
    pub arrivals: Vec<Queue>,
}

impl LossyDrawing {
    /// Before the first event.
    pub fn start(
        alloc: Global,
        shape: &Shape,
        timing: &Timing,
        seed: u64,
    ) -> Result<LossyDrawing, Memory>
        requires same { HaveSameNodes shape.now timing.now }
        requires numbered { 2 * (node_count shape.now + chan_count shape.now) < 2 ^ 32 }
        ensures { IfOk result (λ drawing. LossyDrawingStands drawing shape.now timing.now seed (lossy_beginning shape.now timing.now seed)) }
    {
        let mut generator = generator_of(seed);
        let activations = first_times(alloc, &mut generator, timing)?;
        let (ready, executed) = nothing_executed(alloc, shape.nodes.len())?;
        let (newest, losses) = nothing_delivered(alloc, shape.channels.len())?;
        let (numbers, arrivals) = nothing_sent(alloc, shape.channels.len())?;
        Ok(LossyDrawing {
            generator,
            activations,
            ready,
            executed,
            newest,
            losses,
            numbers,
            arrivals,
        })
    }

    /// The time of what happens next and its place, where it is not past the horizon.
    pub fn next(&self, horizon: u64) -> Option<(u64, u32)>
        requires { length self.now.activations.items + length self.now.arrivals.items < 2 ^ 32 }
        ensures { (s : OfShape) (t : OfTiming) (seed : ℕ) (d : LossyDraw) → LossyDrawingStands self.now s t seed d
            → result ≡ unless_later horizon (next_lossy_due s d) }
    {
        let (at, place) = self.first()?;
        if horizon < at {
            return None;
        }
        Some((at, place))
    }

    fn first(&self) -> Option<(u64, u32)>
        requires { length self.now.activations.items + length self.now.arrivals.items < 2 ^ 32 }
        ensures { (s : OfShape) (t : OfTiming) (seed : ℕ) (d : LossyDraw) → LossyDrawingStands self.now s t seed d → result ≡ next_lossy_due s d }
    {
        let nodes = self.activations.len() as u32;
        let best = first_activation(self.activations.as_slice());
        first_arrival(best, &self.arrivals, nodes)
    }

    /// What happens at a place, which is the next to happen: its event, where so many losses in a row are allowed and so many of a thousand
    /// messages are lost.
    pub fn take(
        &mut self,
        shape: &Shape,
        timing: &Timing,
        limit: u64,
        rate: u64,
        rows: u32,
        at: u64,
        place: u32,
    ) -> Result<LossyEvent, Memory>
        requires due { IsLossyDue self.old shape.now timing.now (at, place) }
        requires time { at ≤ GREATEST_TIME }
        ensures event { (seed : ℕ) (d : LossyDraw) → LossyDrawingStands self.old shape.now timing.now seed d
            → next_lossy_due shape.now d ≡ Some (at, place)
            → IfOk result (λ e. e ≡ due_lossy_event shape.now limit rate seed d (at, place)) }
        ensures stands { (seed : ℕ) (d : LossyDraw) → LossyDrawingStands self.old shape.now timing.now seed d
            → IsUpcoming shape.now timing.now d → next_lossy_due shape.now d ≡ Some (at, place)
            → OnOk result (LossyDrawingStands self.new shape.now timing.now seed
            (lossy_drawn_on shape.now timing.now rows seed d (due_lossy_event shape.now limit rate seed d (at, place)))) }
    {
        let nodes = shape.nodes.len() as u32;
        if place < nodes {
            self.activate(shape, timing, rows, place, at)?;
            return Ok(LossyEvent::Plain(Event::Act(place, at)));
        }
        let ch = place - nodes;
        if self.arrive(ch, limit, rate) {
            Ok(LossyEvent::Lose(ch, at))
        } else {
            Ok(LossyEvent::Plain(Event::Del(ch, at)))
        }
    }

    // The node's deed, the gap to its next activation and the messages that it sends.
    fn activate(
        &mut self,
        shape: &Shape,
        timing: &Timing,
        rows: u32,
        node: u32,
        at: u64,
    ) -> Result<(), Memory>
        requires same { HaveSameNodes shape.now timing.now }
        requires node { node < node_count shape.now }
        requires holds { HoldsAll self.old (node_count shape.now) (chan_count shape.now) }
        requires time { at ≤ GREATEST_TIME }
        ensures { (seed : ℕ) (d : LossyDraw) → LossyDrawingStands self.old shape.now timing.now seed d
            → OnOk result (LossyDrawingStands self.new shape.now timing.now seed (lossy_activated shape.now timing.now rows seed d node at)) }
    {
        let n = node as usize;
        let (ready, executed) = wake(
            shape.channels.as_slice(),
            self.newest.as_slice(),
            node,
            rows,
            self.ready[n],
            self.executed[n],
        );
        self.ready[n] = ready;
        self.executed[n] = executed;
        let gap = draw(
            &mut self.generator,
            timing.tmin_of(node),
            timing.tmax_of(node),
        );
        self.activations[n] = at + gap;
        send(
            &mut self.generator,
            &mut self.numbers,
            &mut self.arrivals,
            shape,
            timing,
            node,
            sent(ready, executed),
            executed,
            at,
        )
    }

    // Whether the oldest message in transit on a channel is lost, as it leaves the channel.
    fn arrive(&mut self, ch: u32, limit: u64, rate: u64) -> bool
        requires newest { ch < length self.old.newest.items }
        requires losses { ch < length self.old.losses.items }
        requires numbers { ch < length self.old.numbers.items }
        requires arrivals { ch < length self.old.arrivals.items }
        ensures lost { result ≡ (nat_lt (slice_index_or self.old.losses.items ch 0) limit
            && nat_lt ((next_u64 (stream_of splitmix_steps self.old.generator)).0 % 1000) rate) }
        ensures taken { TakesOldest self.old self.new ch result }
    {
        let c = ch as usize;
        let below = is_below(&mut self.generator, rate);
        let lost = self.losses[c] < limit && below;
        let number = oldest_number(&self.numbers[c]);
        let (newest, losses) = after_arrival(lost, number, self.newest[c], self.losses[c]);
        self.newest[c] = newest;
        self.losses[c] = losses;
        self.numbers[c].pop();
        self.arrivals[c].pop();
        lost
    }
}

// How many instants a node has sent.
fn sent(ready: bool, executed: u32) -> u32
    ensures { result ≡ executed - unsent (phase_when ready) }
{
    if ready {
        executed.saturating_sub(1)
    } else {
        executed
    }
}

fn oldest_number(numbers: &Queue) -> u64
    ensures { result ≡ oldest_or_0 numbers.now }
{
    match numbers.oldest() {
        Some(number) => number,
        None => 0,
    }
}

// The newest number of a channel and its losses in a row, after a message of this number was lost or delivered.
fn after_arrival(lost: bool, number: u64, newest: u64, losses: u64) -> (u64, u64)
    requires { lost ≡ Bool.true → losses < 2 ^ 64 - 1 }
    ensures newest { result.0 ≡ (if lost then newest else number) }
    ensures losses { result.1 ≡ (if lost then losses + 1 else 0) }
{
    if lost {
        (newest, losses + 1)
    } else {
        (number, 0)
    }
}

// The times of the nodes' first activations.
fn first_times(
    alloc: Global,
    generator: &mut SplitMix64,
    timing: &Timing,
) -> Result<Vec<u64>, Memory>
    ensures times { (seed : ℕ) → stream_of splitmix_steps generator.old ≡ left_after seed 0
        → IfOk result (λ times. HasFirstTimes timing.now seed (length timing.now.nodes) times.items) }
    ensures left { (seed : ℕ) → stream_of splitmix_steps generator.old ≡ left_after seed 0
        → OnOk result (stream_of splitmix_steps generator.new ≡ left_after seed (length timing.now.nodes)) }
{
    let mut times = Vec::new(alloc);
    for node in 0..timing.node_count() {
        times.push(draw(generator, 0, timing.tmax_of(node)))?;
    }
    Ok(times)
}

// No node has executed an instant.
fn nothing_executed(alloc: Global, count: usize) -> Result<(Vec<bool>, Vec<u32>), Memory>
    ensures ready { IfOk result (λ both. both.0.items ≡ replicate count Bool.false) }
    ensures executed { IfOk result (λ both. both.1.items ≡ replicate count 0) }
{
    let ready = vec![in alloc; false; count]?;
    let executed = vec![in alloc; 0u32; count]?;
    Ok((ready, executed))
}

// No channel has delivered a message or lost one.
fn nothing_delivered(alloc: Global, count: usize) -> Result<(Vec<u64>, Vec<u64>), Memory>
    ensures newest { IfOk result (λ both. both.0.items ≡ replicate count 0) }
    ensures losses { IfOk result (λ both. both.1.items ≡ replicate count 0) }
{
    let newest = vec![in alloc; 0u64; count]?;
    let losses = vec![in alloc; 0u64; count]?;
    Ok((newest, losses))
}

// Nothing is in transit.
fn nothing_sent(alloc: Global, count: usize) -> Result<(Vec<Queue>, Vec<Queue>), Memory>
    ensures numbers { IfOk result (λ both. both.0.items ≡ replicate count []) }
    ensures arrivals { IfOk result (λ both. both.1.items ≡ replicate count []) }
{
    let numbers = empty_queues(alloc, count)?;
    let arrivals = empty_queues(alloc, count)?;
    Ok((numbers, arrivals))
}

fn empty_queues(alloc: Global, count: usize) -> Result<Vec<Queue>, Memory>
    ensures { IfOk result (λ queues. queues.items ≡ replicate count []) }
{
    let mut queues = Vec::with_capacity(alloc, count)?;
    for _channel in 0..count {
        queues.push(Queue::new(alloc))?;
    }
    Ok(queues)
}
