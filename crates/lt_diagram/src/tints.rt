// What instant each node is at.
ghost use Rattle.std.specs.Prelude.{◌≡◌, ◌++◌, ◌==◌, ◌&&◌, find, OnOk};
ghost use Rattle.lt_diagram.specs.Tints.{is_execution, no_later, ends_at, drawn_tint, tint_piece, drawn_tints};

use crate::chart::{Chart, row_top, x_at};
use crate::marks::marks_behind;
use crate::picture::{Mark, Sign};
use lt_base::{List, Memory};
use lt_svg::fill;

/// Whether an activation executes an instant.
pub fn is_execution(sign: Sign) -> bool
    ensures { result ≡ is_execution sign }
{
    match sign {
        Sign::Nothing => false,
        Sign::Executes(_) => true,
        Sign::Sends(_) => false,
    }
}

fn no_later(end: u64, next: Option<Mark>) -> u64
    ensures { result ≡ no_later end next }
{
    match next {
        None => end,
        Some(next) => next.time.min(end),
    }
}

// The next execution of a node.
fn next_execution(node: u32, later: &[Mark]) -> Option<Mark>
    ensures { result ≡ find (λ n. (n.node == node) && is_execution n.sign) later.now }
{
    later
        .iter()
        .copied()
        .find(|next| next.node == node && is_execution(next.sign))
}

// When a node executes next, but no later than the end.
#[tactic(auto, unfolding(crate::specs::Tints::ends_at))]
fn ends_at(node: u32, later: &[Mark], end: u64) -> u64
    ensures { result ≡ ends_at node later.now end }
{
    no_later(end, next_execution(node, later))
}

// The row of a node between two times, in the colour of an instant.
#[tactic(auto, unfolding(crate::specs::Tints::drawn_tint))]
fn write_tint(
    out: &mut List<u8>,
    chart: &Chart,
    node: u32,
    instant: u32,
    from: u64,
    to: u64,
) -> Result<(), Memory>
    ensures { OnOk result (out.new ≡ out.old ++ drawn_tint chart.now node instant from to) }
{
    let left = x_at(chart, from);
    let right = x_at(chart, to);
    if left < right {
        return fill(
            out,
            b"<rect x=\"%\" y=\"%\" width=\"%\" height=\"%\" class=\"i%\"/>\n",
            &[
                left,
                row_top(chart, node),
                right - left,
                u64::from(chart.row.saturating_sub(1)),
                u64::from(instant % 3),
            ],
        );
    }
    Ok(())
}

#[tactic(auto, unfolding(crate::specs::Tints::tint_piece))]
fn tint_after(
    out: &mut List<u8>,
    chart: &Chart,
    end: u64,
    mark: Mark,
    later: &[Mark],
) -> Result<(), Memory>
    ensures { OnOk result (out.new ≡ out.old ++ tint_piece chart.now end mark later.now) }
{
    match mark.sign {
        Sign::Nothing => Ok(()),
        Sign::Executes(k) => {
            let until = ends_at(mark.node, later, end);
            write_tint(out, chart, mark.node, k, mark.time, until)
        }
        Sign::Sends(_) => Ok(()),
    }
}

/// Appends the tints: of each execution one up to the node's next, or to an end.
pub fn write_tints(
    out: &mut List<u8>,
    chart: &Chart,
    end: u64,
    marks: &[Mark],
) -> Result<(), Memory>
    ensures { OnOk result (out.new ≡ out.old ++ drawn_tints chart.now end marks.now) }
{
    'marks: for k in 0..marks.len() {
        let later = marks_behind(marks, k);
        tint_after(out, chart, end, marks[k], later)?;
    }
    Ok(())
}
