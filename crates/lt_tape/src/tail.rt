// What is kept of the last strokes.
ghost use Rattle.std.specs.Prelude.{◌≡◌, ◌≤◌, ◌++◌, ◌∷◌, [], List as Items, length, nat_le, OnOk};
ghost use Rattle.lt_tape.specs.Tapes.{AreOrdered, IsPruned, IsTailOf, tail_begin};
ghost use Rattle.lt_tape.specs.declared.stroke.Stroke.{Stroke as OfStroke};
ghost use Rattle.lt_tape.specs.Times.{stroke_time};
ghost use Rattle.lt_tape.specs.Windows.{skipped_to};

use crate::keeping::note_all_early;
use crate::stroke::{Stroke, stroke_time, stroke_time_at};
use crate::window::LATEST;
use lt_base::{List, Memory};
use lt_diagram::Mark;
use std::alloc::Global;

/// The last strokes, so many at least, and each node's last execution before them. Where there are more than the limit, the first are dropped.
#[derive(Drop)]
pub struct Tail {
    pub most: usize,
    pub limit: usize,
    pub kept: List<Stroke>,
    pub early: List<Mark>,
}

fn is_reached(from: u64, stroke: &Stroke) -> bool
    ensures { result ≡ nat_le from (stroke_time stroke.now) }
{
    from <= stroke_time(stroke)
}

// How many events come before the first one at this tick or after it.
fn skipped_to(from: u64, strokes: &[Stroke]) -> usize
    ensures value { result ≡ skipped_to from strokes.now }
    ensures within { result ≤ length strokes.now }
{
    let mut count = 0usize;
    'strokes: for stroke in strokes {
        if is_reached(from, stroke) {
            return count;
        }
        count += 1;
    }
    count
}

impl Tail {
    /// Before the first stroke.
    pub fn new(alloc: Global, most: usize) -> Tail
        ensures fresh { 1 ≤ most → IsTailOf result [] }
        ensures most { result.most ≡ most }
    {
        Tail {
            most,
            limit: most.saturating_mul(2),
            kept: List::new(alloc),
            early: List::new(alloc),
        }
    }

    /// Takes the next stroke, which comes no earlier than the others.
    pub fn take(&mut self, alloc: Global, stroke: Stroke) -> Result<(), Memory>
        ensures takes { OnOk result ((xs : Items OfStroke) → IsTailOf self.old xs → AreOrdered (xs ++ stroke ∷ []) → IsTailOf self.new (xs ++ stroke ∷ [])) }
        ensures most { OnOk result (self.new.most ≡ self.old.most) }
    {
        self.kept.push(stroke)?;
        if self.limit < self.kept.len() && self.most <= self.kept.len() {
            return self.prune(alloc);
        }
        Ok(())
    }

    /// Where a picture of the last of so many events begins.
    pub fn begin(&self, count: usize) -> u64
        ensures value { result ≡ tail_begin self.now count }
        ensures early { result ≤ 2000000000000000 }
    {
        if self.most < count {
            let place = self.kept.len().saturating_sub(self.most);
            stroke_time_at(self.kept.as_slice(), place).min(LATEST)
        } else {
            0
        }
    }

    // Drops what happened before the last events but so many.
    fn prune(&mut self, alloc: Global) -> Result<(), Memory>
        requires { self.old.most ≤ length self.old.kept }
        ensures { OnOk result (IsPruned self.old self.new) }
    {
        let kept = self.kept.as_slice();
        let cut = stroke_time_at(kept, kept.len() - self.most);
        let skipped = skipped_to(cut, kept);
        note_all_early(alloc, cut, &kept[..skipped], &mut self.early)?;
        let rest = List::from_slice(alloc, &kept[skipped..])?;
        self.limit = rest.len().saturating_mul(2).max(self.limit);
        self.kept = rest;
        Ok(())
    }
}
