// A list of events that is being drawn.
ghost use Rattle.std.specs.Prelude.{◌≡◌, ◌<◌, ◌≤◌, ◌+◌, ◌*◌, ◌^◌, ℕ, List, Option, Some, None, IfOk, length, slice_set, slice_index_or, OnOk};
ghost use Rattle.rand_core.specs.Steps.{stream_of};
ghost use Rattle.rand_xoshiro.specs.SplitMix64.{splitmix_steps};
ghost use Rattle.lt_arch.specs.declared.event.Event.{Event as OfEvent};
ghost use Rattle.lt_arch.specs.declared.limits.TheConstants.{GREATEST_TIME};
ghost use Rattle.lt_arch.specs.declared.shape.Shape.{Shape as OfShape};
ghost use Rattle.lt_arch.specs.declared.timing.Timing.{Timing as OfTiming};
ghost use Rattle.lt_arch.specs.Readers.{chan_count, node_count, is_back_pressure};
ghost use Rattle.lt_arch.specs.Deeds.{deed_at};
ghost use Rattle.lt_arch.specs.State.{first_phase};
ghost use Rattle.lt_arch.specs.Shapes.{HaveSameNodes};
ghost use Rattle.lt_sim.specs.Words.{generator, left_after};
ghost use Rattle.lt_sim.specs.Drawn.{Draw, beginning, activated, drawn_on, next_due, pending_at, due_event};
ghost use Rattle.lt_sim.specs.Progress.{ProgressIsAt, HasNode};
ghost use Rattle.lt_sim.specs.Controlled.{AreControlled, controller_of, controlled_after};
ghost use Rattle.lt_sim.specs.Standing.{DrawingStands, DrawKeeps, IsDue, unless_later};

use crate::controllers::Controllers;
use crate::pending::{first_pending, set_pending};
use crate::progress::Progress;
use crate::sending::{Span, both_spans, draw_delays};
use crate::words::{draw, generator_of};
use lt_arch::{Deadlines, Deed, Event, Protocol, Shape, Timing};
use lt_base::Memory;
use rand_xoshiro::SplitMix64;
use std::alloc::Global;

/// What is pending, the words that are left, and how far the nodes and the channels are.
#[derive(Drop)]
pub struct Drawing {
    pub generator: SplitMix64,
    // when each node and each channel happens next
    pub pending: Deadlines,
    pub controllers: Controllers,
    pub progress: Progress,
    // where the channels of each node stand
    pub messages: Vec<Span>,
    pub acks: Vec<Span>,
}

impl Drawing {
    /// Before the first event.
    pub fn start(
        alloc: Global,
        shape: &Shape,
        timing: &Timing,
        seed: u64,
    ) -> Result<Drawing, Memory>
        requires same { HaveSameNodes shape.now timing.now }
        requires numbered { 2 * (node_count shape.now + chan_count shape.now) < 2 ^ 32 }
        ensures { IfOk result (λ drawing. DrawingStands drawing shape.now timing.now seed (beginning shape.now timing.now seed)) }
    {
        let mut generator = generator_of(seed);
        let pending = first_activations(alloc, &mut generator, shape, timing)?;
        let (messages, acks) = both_spans(alloc, shape)?;
        let (controllers, progress) = at_start(alloc, shape, timing)?;
        Ok(Drawing {
            generator,
            pending,
            controllers,
            progress,
            messages,
            acks,
        })
    }

    /// The time of what happens next and its place, where it is not past the horizon.
    pub fn next(&self, horizon: u64) -> Option<(u64, u32)>
        ensures { (s : OfShape) (t : OfTiming) (seed : ℕ) (d : Draw) → DrawingStands self.now s t seed d → result ≡ unless_later horizon (next_due s d) }
    {
        let (at, place) = first_pending(&self.pending)?;
        if horizon < at {
            return None;
        }
        Some((at, place))
    }

    /// What happens at a place, which is the next to happen.
    pub fn take(&mut self, shape: &Shape, timing: &Timing, rows: u32, at: u64, place: u32)
        requires due { IsDue self.old shape.now timing.now rows (at, place) }
        requires time { at ≤ GREATEST_TIME }
        ensures { (seed : ℕ) (front : List OfEvent) (d : Draw) → DrawingStands self.old shape.now timing.now seed d
            → DrawKeeps shape.now timing.now rows front d → next_due shape.now d ≡ Some (at, place)
            → DrawingStands self.new shape.now timing.now seed (drawn_on shape.now timing.now rows seed d (due_event shape.now (at, place))) }
    {
        let nodes = shape.nodes.len() as u32;
        if place < nodes {
            self.activate(shape, timing, rows, place, at);
        } else {
            set_pending(&mut self.pending, place, None);
            self.progress.arrive(shape, place - nodes);
        }
    }

    // The controller's deed, the gap to the next activation and the delays of the messages.
    fn activate(&mut self, shape: &Shape, timing: &Timing, rows: u32, node: u32, at: u64)
        requires node { node < node_count shape.now }
        requires due { IsDue self.old shape.now timing.now rows (at, node) }
        requires time { at ≤ GREATEST_TIME }
        ensures { (seed : ℕ) (front : List OfEvent) (d : Draw) → DrawingStands self.old shape.now timing.now seed d
            → DrawKeeps shape.now timing.now rows front d
            → DrawingStands self.new shape.now timing.now seed (activated shape.now timing.now rows seed d node at) }
    {
        let deed = wake(&self.progress, &mut self.controllers, rows, node);
        let gap = draw(
            &mut self.generator,
            timing.tmin_of(node),
            timing.tmax_of(node),
        );
        set_pending(&mut self.pending, node, Some(at + gap));
        match deed {
            Deed::Nothing => {}
            Deed::Execute => {
                self.progress.execute(node);
                let by_pressure = is_back_pressure(timing.protocol);
                if by_pressure {
                    draw_delays(
                        &mut self.generator,
                        &mut self.pending,
                        shape,
                        timing,
                        self.acks[node as usize],
                        node,
                        false,
                        at,
                    );
                }
            }
            Deed::Send => draw_delays(
                &mut self.generator,
                &mut self.pending,
                shape,
                timing,
                self.messages[node as usize],
                node,
                true,
                at,
            ),
        }
    }
}

fn is_back_pressure(protocol: Protocol) -> bool
    ensures { result ≡ is_back_pressure protocol }
{
    match protocol {
        Protocol::BackPressure => true,
        Protocol::TimeBased => false,
    }
}

// What the node's controller does.
fn wake(progress: &Progress, controllers: &mut Controllers, rows: u32, node: u32) -> Deed
    requires node { HasNode progress.now node }
    requires controller { node < length controllers.old }
    ensures deed { (s : OfShape) (t : OfTiming) (seed : ℕ) (d : Draw)
        → ProgressIsAt progress.now s (λ n. (d.state.node n).executed) (λ c. (d.state.chan c).delivered)
        → AreControlled t (node_count s) (λ n. (d.state.node n).phase) controllers.old → node < node_count s → result ≡ deed_at s rows d.state node }
    ensures controllers { controllers.new ≡ slice_set controllers.old node (controlled_after (controller_of controllers.old node) result) }
{
    let all_in = progress.messages.all_fresh(node);
    let any_in = progress.messages.any_fresh(node);
    let all_ack = progress.acks.all_fresh(node);
    let more = progress.executed[node as usize] < rows;
    controllers.wake(node, all_in, any_in, all_ack, more)
}

// How far the nodes and the channels are before the first event.
fn at_start(
    alloc: Global,
    shape: &Shape,
    timing: &Timing,
) -> Result<(Controllers, Progress), Memory>
    requires { 2 * (node_count shape.now + chan_count shape.now) < 2 ^ 32 }
    ensures controllers { IfOk result (λ first. AreControlled timing.now (length timing.now.nodes) (λ n. first_phase timing.now.protocol) first.0) }
    ensures progress { IfOk result (λ first. ProgressIsAt first.1 shape.now (λ n. 0) (λ c. 0)) }
{
    let controllers = Controllers::start(alloc, timing)?;
    let progress = Progress::start(alloc, shape)?;
    Ok((controllers, progress))
}

// The times of the nodes' first activations.
fn first_activations(
    alloc: Global,
    generator: &mut SplitMix64,
    shape: &Shape,
    timing: &Timing,
) -> Result<Deadlines, Memory>
    requires same { HaveSameNodes shape.now timing.now }
    requires numbered { 2 * (node_count shape.now + chan_count shape.now) < 2 ^ 32 }
    ensures size { IfOk result (λ pending. length pending ≡ node_count shape.now + chan_count shape.now) }
    ensures pending { (seed : ℕ) → stream_of splitmix_steps generator.old ≡ left_after seed 0
        → IfOk result (λ pending. (place : ℕ) → place < node_count shape.now + chan_count shape.now
        → slice_index_or pending place None ≡ pending_at shape.now (beginning shape.now timing.now seed) place) }
    ensures left { (seed : ℕ) → stream_of splitmix_steps generator.old ≡ left_after seed 0
        → OnOk result (stream_of splitmix_steps generator.new ≡ left_after seed (node_count shape.now)) }
{
    let places = (shape.nodes.len() + shape.channels.len()) as u32;
    let mut pending = Deadlines::start(alloc, places)?;
    for node in 0..timing.node_count() {
        let at = draw(generator, 0, timing.tmax_of(node));
        set_pending(&mut pending, node, Some(at));
    }
    Ok(pending)
}

/// The event of a place at a time.
pub fn event_at(shape: &Shape, at: u64, place: u32) -> Event
    requires { node_count shape.now < 2 ^ 32 }
    ensures { result ≡ due_event shape.now (at, place) }
{
    let nodes = shape.nodes.len() as u32;
    if place < nodes {
        Event::Act(place, at)
    } else {
        Event::Del(place - nodes, at)
    }
}
