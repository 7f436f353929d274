// What is kept of strokes while they come.
ghost use Rattle.std.specs.Prelude.{◌≡◌, ◌≤◌, ◌++◌, ◌∷◌, ◌==◌, [], ℕ, List as Items, find, is_some, length, min, None, option_map, unwrap_or, IfOk, IfSome, OnOk};
ghost use Rattle.lt_arch.specs.declared.limits.TheConstants.{GREATEST_TIME};
ghost use Rattle.lt_tape.specs.declared.asked.Asked.{Asked as OfAsked};
ghost use Rattle.lt_tape.specs.declared.stroke.Stroke.{Stroke as OfStroke};
ghost use Rattle.lt_tape.specs.Excerpts.{excerpt_of};
ghost use Rattle.lt_tape.specs.Tapes.{IsTapeOf, front_excerpt, front_window, kept_excerpt, latest_after, tail_excerpt, tail_window, tape_count};
ghost use Rattle.lt_tape.specs.Times.{last_mark, last_time, stroke_time};
ghost use Rattle.lt_tape.specs.Windows.{latest_tick};

use crate::asked::Asked;
use crate::excerpt::Excerpt;
use crate::front::Front;
use crate::keeping::{add_marks, count_in, lines_in, note, note_all_early};
use crate::stroke::Stroke;
use crate::tail::Tail;
use crate::tally::Tally;
use crate::window::{LATEST, Window, most_shown, past_stop};
use lt_base::{List, Memory};
use lt_diagram::Mark;
use std::alloc::Global;

/// What may be drawn of the strokes that came, where it is asked which ticks are. It grows with what is drawn, and not with how many events there are.
#[derive(Drop)]
pub struct Tape {
    alloc: Global,
    asked: Asked,
    front: Front,
    tail: Tail,
    latest: List<Mark>,
}

// Where a picture begins, where it is asked that it does.
fn first_asked(asked: Asked) -> u64
    ensures value { result ≡ min (unwrap_or asked.from 0) latest_tick }
    ensures early { result ≤ 2000000000000000 }
{
    let from = match asked.from {
        Some(from) => from,
        None => 0,
    };
    from.min(LATEST)
}

// Notes an activation as its node's last one.
fn note_latest(alloc: Global, stroke: &Stroke, marks: &mut List<Mark>) -> Result<(), Memory>
    ensures { OnOk result (marks.new ≡ latest_after stroke.now marks.old) }
{
    if let Stroke::Point(mark) = stroke {
        note(alloc, *mark, marks)?;
    }
    Ok(())
}

fn mark_of(node: u32, marks: &[Mark]) -> Option<Mark>
    ensures { result ≡ find (λ k. k.node == node) marks.now }
{
    marks.iter().copied().find(|mark| mark.node == node)
}

fn time_of(mark: Option<Mark>) -> Option<u64>
    ensures { result ≡ option_map (λ m. m.time) mark }
{
    match mark {
        None => None,
        Some(mark) => Some(mark.time),
    }
}

// What a picture shows, by what is kept and these marks before it.
fn kept_excerpt(
    alloc: Global,
    window: Window,
    tally: &Tally,
    early: List<Mark>,
    kept: &List<Stroke>,
) -> Result<Excerpt, Memory>
    ensures { IfOk result (λ excerpt. excerpt ≡ kept_excerpt window tally.now.count tally.now.last early kept.now) }
{
    let strokes = kept.as_slice();
    let mut marks = early;
    add_marks(window, strokes, &mut marks)?;
    Ok(Excerpt {
        window,
        count: tally.count,
        shown: count_in(window, strokes),
        last: tally.last,
        marks,
        lines: lines_in(alloc, window, strokes)?,
    })
}

impl Tape {
    /// Before the first stroke, of so many nodes, where this is asked.
    pub fn new(alloc: Global, asked: Asked, nodes: usize) -> Tape
        requires { nodes ≤ 4294967295 }
        ensures { IsTapeOf result asked nodes [] }
    {
        let most = most_shown(nodes);
        Tape {
            alloc,
            asked,
            front: Front::new(alloc, first_asked(asked), asked.to, most),
            tail: Tail::new(alloc, most),
            latest: List::new(alloc),
        }
    }

    /// How many strokes came.
    pub fn count(&self) -> usize
        ensures value { result ≡ tape_count self.now }
        ensures all { (asked : OfAsked) (nodes : ℕ) (xs : Items OfStroke) → IsTapeOf self.now asked nodes xs → result ≡ length xs }
    {
        self.front.tally.count
    }

    /// When the last event happened.
    pub fn last_time(&self) -> u64
        ensures { (asked : OfAsked) (nodes : ℕ) (xs : Items OfStroke) → IsTapeOf self.now asked nodes xs → result ≡ last_time xs }
    {
        self.front.tally.last
    }

    /// When a node was activated last.
    pub fn last_mark(&self, node: u32) -> Option<u64>
        ensures value { (asked : OfAsked) (nodes : ℕ) (xs : Items OfStroke) → IsTapeOf self.now asked nodes xs → result ≡ last_mark node xs }
        ensures timely { (asked : OfAsked) (nodes : ℕ) (xs : Items OfStroke) → IsTapeOf self.now asked nodes xs → IfSome result (λ at. at ≤ GREATEST_TIME) }
    {
        time_of(mark_of(node, self.latest.as_slice()))
    }

    /// Takes the next stroke, which comes no earlier than the others.
    pub fn push(&mut self, stroke: Stroke) -> Result<(), Memory>
        ensures { OnOk result ((asked : OfAsked) (nodes : ℕ) (xs : Items OfStroke) → IsTapeOf self.old asked nodes xs → last_time xs ≤ stroke_time stroke
            → stroke_time stroke ≤ GREATEST_TIME → IsTapeOf self.new asked nodes (xs ++ stroke ∷ [])) }
    {
        let alloc = self.alloc;
        self.front.take(alloc, stroke)?;
        self.tail.take(alloc, stroke)?;
        note_latest(alloc, &stroke, &mut self.latest)
    }

    // From the tick on at which it is asked to begin, or from the beginning.
    fn front_excerpt(&self, stop: Option<u64>) -> Result<Excerpt, Memory>
        ensures { IfOk result (λ excerpt. excerpt ≡ front_excerpt self.now.front (front_window self.now (is_some self.now.asked.from) stop)) }
    {
        let front = &self.front;
        let window = Window {
            from: front.tally.from,
            to: front.end(self.asked.from.is_some(), stop),
        };
        let early = List::from_slice(self.alloc, front.early.as_slice())?;
        kept_excerpt(self.alloc, window, &front.tally, early, &front.kept)
    }

    // Where the picture of the last events is.
    fn tail_window(&self, stop: u64) -> Window
        ensures { result ≡ tail_window self.now stop }
    {
        let tally = &self.front.tally;
        let from = self.tail.begin(tally.count);
        let to = match self.asked.to {
            Some(to) => to,
            None => past_stop(tally.last.max(stop)),
        };
        Window {
            from,
            to: to.max(from + 1),
        }
    }

    // The last events before an offence.
    fn tail_excerpt(&self, stop: u64) -> Result<Excerpt, Memory>
        ensures { IfOk result (λ excerpt. excerpt ≡ tail_excerpt self.now.tail self.now.front.tally.count self.now.front.tally.last (tail_window self.now stop)) }
    {
        let window = self.tail_window(stop);
        let tail = &self.tail;
        let kept = tail.kept.as_slice();
        let mut early = List::from_slice(self.alloc, tail.early.as_slice())?;
        note_all_early(self.alloc, window.from, kept, &mut early)?;
        kept_excerpt(self.alloc, window, &self.front.tally, early, &tail.kept)
    }

    // What is drawn where it is not asked at which tick to begin.
    fn default_excerpt(&self, stop: Option<u64>) -> Result<Excerpt, Memory>
        requires { self.now.asked.from ≡ None }
        ensures { IfOk result (λ excerpt. (asked : OfAsked) (nodes : ℕ) (xs : Items OfStroke) → IsTapeOf self.now asked nodes xs → excerpt ≡ excerpt_of asked nodes stop xs) }
    {
        match stop {
            None => self.front_excerpt(stop),
            Some(stop) => self.tail_excerpt(stop),
        }
    }

    /// What is drawn in the end, with an offence up to this time or without.
    pub fn excerpt(&self, stop: Option<u64>) -> Result<Excerpt, Memory>
        ensures { IfOk result (λ excerpt. (asked : OfAsked) (nodes : ℕ) (xs : Items OfStroke) → IsTapeOf self.now asked nodes xs → excerpt ≡ excerpt_of asked nodes stop xs) }
    {
        match self.asked.from {
            None => self.default_excerpt(stop),
            Some(_) => self.front_excerpt(stop),
        }
    }
}
