// What of a schedule's strokes is drawn.
ghost use Rattle.std.specs.Prelude.{◌≡◌, ◌==◌, ◌++◌, not, IfOk, OnOk};
ghost use Rattle.std.specs.List.{filter, flat_map};
ghost use Rattle.lt_tape.specs.Kept.{count_in, early_after, early_from, is_in_window, is_on_way, line_within, lines_in, mark_in, mark_noted};

use crate::stroke::{Stroke, stroke_time};
use crate::window::Window;
use lt_base::{List, Memory};
use lt_diagram::{Arrow, Mark, is_execution};
use std::alloc::Global;
use std::mem::replace;

/// Whether a time is within the window.
pub fn is_in_window(window: Window, time: u64) -> bool
    ensures { result ≡ is_in_window window time }
{
    window.from <= time && time <= window.to
}

/// How many events are drawn.
pub(crate) fn count_in(window: Window, strokes: &[Stroke]) -> usize
    ensures { result ≡ count_in window 0 strokes.now }
{
    let mut count = 0usize;
    'strokes: for stroke in strokes {
        if is_in_window(window, stroke_time(stroke)) {
            count += 1;
        }
    }
    count
}

// Appends the mark of a stroke in the window.
fn add_mark(window: Window, stroke: &Stroke, marks: &mut List<Mark>) -> Result<(), Memory>
    ensures { OnOk result (marks.new ≡ marks.old ++ mark_in window stroke.now) }
{
    if let Stroke::Point(mark) = stroke {
        if is_in_window(window, mark.time) {
            marks.push(*mark)?;
        }
    }
    Ok(())
}

/// Appends the activations in the window.
pub(crate) fn add_marks(
    window: Window,
    strokes: &[Stroke],
    marks: &mut List<Mark>,
) -> Result<(), Memory>
    ensures { OnOk result (marks.new ≡ marks.old ++ flat_map (mark_in window) strokes.now) }
{
    'strokes: for stroke in strokes {
        add_mark(window, stroke, marks)?;
    }
    Ok(())
}

/// Whether a message is on its way within the window.
pub fn is_on_way(window: Window, arrow: Arrow) -> bool
    ensures { result ≡ is_on_way window arrow }
{
    arrow.sent <= window.to && window.from <= arrow.come
}

fn add_line(window: Window, stroke: &Stroke, lines: &mut List<Arrow>) -> Result<(), Memory>
    ensures { OnOk result (lines.new ≡ lines.old ++ line_within window stroke.now) }
{
    if let Stroke::Line(arrow) = stroke {
        if is_on_way(window, *arrow) {
            lines.push(*arrow)?;
        }
    }
    Ok(())
}

/// The messages that were delivered and are on their way in the window.
pub(crate) fn lines_in(
    alloc: Global,
    window: Window,
    strokes: &[Stroke],
) -> Result<List<Arrow>, Memory>
    ensures { IfOk result (λ lines. lines ≡ lines_in window strokes.now) }
{
    let mut lines = List::new(alloc);
    'strokes: for stroke in strokes {
        add_line(window, stroke, &mut lines)?;
    }
    Ok(lines)
}

// The marks of the other nodes.
fn without(node: u32, marks: Vec<Mark>) -> Vec<Mark>
    ensures { result.items ≡ filter (λ k. not (k.node == node)) marks.items }
{
    let mut rest = marks;
    rest.retain(|mark| mark.node != node);
    rest
}

/// Notes a mark as its node's last one.
pub(crate) fn note(alloc: Global, mark: Mark, marks: &mut List<Mark>) -> Result<(), Memory>
    ensures { OnOk result (marks.new ≡ mark_noted mark marks.old) }
{
    let known = replace(marks, List::new(alloc)).into_vec();
    *marks = List::of(without(mark.node, known));
    marks.push(mark)
}

/// Notes an execution before a tick as its node's last one.
pub(crate) fn note_early(
    alloc: Global,
    from: u64,
    stroke: &Stroke,
    marks: &mut List<Mark>,
) -> Result<(), Memory>
    ensures { OnOk result (marks.new ≡ early_after from stroke.now marks.old) }
{
    if let Stroke::Point(mark) = stroke {
        if mark.time < from && is_execution(mark.sign) {
            note(alloc, *mark, marks)?;
        }
    }
    Ok(())
}

/// Notes those before a tick, one after another.
pub(crate) fn note_all_early(
    alloc: Global,
    from: u64,
    strokes: &[Stroke],
    marks: &mut List<Mark>,
) -> Result<(), Memory>
    ensures { OnOk result (marks.new ≡ early_from from marks.old strokes.now) }
{
    'strokes: for stroke in strokes {
        note_early(alloc, from, stroke, marks)?;
    }
    Ok(())
}
