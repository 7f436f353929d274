// What is kept of strokes from a tick on.
ghost use Rattle.std.specs.Prelude.{◌≡◌, ◌≤◌, [], OnOk};
ghost use Rattle.lt_tape.specs.Tapes.{IsFrontOf, end_by, front_after, front_end, is_before_end, is_taped};

use crate::keeping::note_early;
use crate::stroke::{Stroke, stroke_begin, stroke_time};
use crate::tally::Tally;
use lt_base::{List, Memory};
use lt_diagram::Mark;
use std::alloc::Global;

/// What may be drawn from a tick on, up to the tick that is asked or where enough is drawn, and each node's last execution before it.
#[derive(Drop)]
pub struct Front {
    pub to: Option<u64>,
    /// The tick behind the one at which it begins.
    pub after: u64,
    pub tally: Tally,
    pub kept: List<Stroke>,
    pub early: List<Mark>,
}

fn end_by(to: Option<u64>, tally: &Tally, after: u64) -> Option<u64>
    ensures { result ≡ end_by to tally.now after }
{
    if let Some(to) = to {
        return Some(to.max(after));
    }
    if tally.is_full() {
        return Some(tally.reach.max(after));
    }
    None
}

fn is_before_end(end: Option<u64>, stroke: &Stroke) -> bool
    ensures { result ≡ is_before_end end stroke.now }
{
    match end {
        None => true,
        Some(end) => stroke_begin(stroke) <= end,
    }
}

impl Front {
    /// Before the first stroke: from this tick on, and to this one.
    pub fn new(alloc: Global, from: u64, to: Option<u64>, most: usize) -> Front
        requires { from ≤ 2000000000000000 }
        ensures fresh { 1 ≤ most → IsFrontOf result [] }
        ensures from { result.tally.from ≡ from }
        ensures to { result.to ≡ to }
        ensures most { result.tally.most ≡ most }
    {
        Front {
            to,
            after: from + 1,
            tally: Tally::new(from, most),
            kept: List::new(alloc),
            early: List::new(alloc),
        }
    }

    /// Where a picture ends that begins there, where it is asked that it does or not, with an offence up to this time or without.
    pub fn end(&self, begins: bool, stop: Option<u64>) -> u64
        ensures { result ≡ front_end self.now begins stop }
    {
        let end = match self.to {
            Some(to) => to,
            None => self.tally.open_end(begins, stop),
        };
        end.max(self.after)
    }

    // Whether a stroke that comes next may be drawn.
    fn is_wanted(&self, stroke: &Stroke) -> bool
        ensures { result ≡ is_taped self.now stroke.now }
    {
        let end = end_by(self.to, &self.tally, self.after);
        self.tally.from <= stroke_time(stroke) && is_before_end(end, stroke)
    }

    /// Takes the next stroke.
    pub fn take(&mut self, alloc: Global, stroke: Stroke) -> Result<(), Memory>
        ensures { OnOk result (self.new ≡ front_after self.old stroke) }
    {
        if self.is_wanted(&stroke) {
            self.kept.push(stroke)?;
        }
        note_early(alloc, self.tally.from, &stroke, &mut self.early)?;
        self.tally.take(stroke_time(&stroke))
    }
}
