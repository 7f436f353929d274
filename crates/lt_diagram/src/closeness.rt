// How close marks come to one another.
ghost use Rattle.std.specs.Prelude.{◌≡◌, ◌==◌, find, min};
ghost use Rattle.lt_diagram.specs.Marks.{gap_to, gap_after, closest_from, style_of};

use crate::chart::{Chart, is_within, x_at};
use crate::marks::{Style, mark_size, marks_behind};
use crate::picture::Mark;
use crate::scale::nice_step;

fn gap_to(chart: &Chart, mark: Mark, next: Option<Mark>) -> u64
    ensures { result ≡ gap_to chart.now mark next }
{
    match next {
        None => u64::from(chart.breadth),
        Some(next) => {
            if is_within(chart, mark.time) && is_within(chart, next.time) {
                x_at(chart, next.time).saturating_sub(x_at(chart, mark.time))
            } else {
                u64::from(chart.breadth)
            }
        }
    }
}

// The next mark of the same node.
fn next_mark(node: u32, later: &[Mark]) -> Option<Mark>
    ensures { result ≡ find (λ n. n.node == node) later.now }
{
    later.iter().copied().find(|next| next.node == node)
}

#[tactic(auto, unfolding(crate::specs::Marks::gap_after))]
fn gap_after(chart: &Chart, mark: Mark, later: &[Mark]) -> u64
    ensures { result ≡ gap_after chart.now mark later.now }
{
    gap_to(chart, mark, next_mark(mark.node, later))
}

// The lesser of a way and of the one to the next mark of the same node.
fn nearer(chart: &Chart, best: u64, mark: Mark, later: &[Mark]) -> u64
    ensures { result ≡ min best (gap_after chart.now mark later.now) }
{
    best.min(gap_after(chart, mark, later))
}

// The least way between two marks of a node.
fn closest(chart: &Chart, marks: &[Mark]) -> u64
    ensures { result ≡ closest_from chart.now chart.now.breadth marks.now }
{
    let mut best = u64::from(chart.breadth);
    'marks: for k in 0..marks.len() {
        let later = marks_behind(marks, k);
        best = nearer(chart, best, marks[k], later);
    }
    best
}

/// How the marks of a picture are drawn.
#[tactic(auto, unfolding(crate::specs::Marks::style_of))]
pub fn style_of(chart: &Chart, marks: &[Mark]) -> Style
    ensures { result ≡ style_of chart.now marks.now }
{
    let gap = closest(chart, marks);
    Style {
        size: mark_size(gap),
        every: nice_step(32, gap, 1),
    }
}
