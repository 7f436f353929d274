// Which messages are drawn.
ghost use Rattle.std.specs.Prelude.{◌≡◌, ◌++◌, IfOk, OnOk};
ghost use Rattle.lt_drawing.specs.Kept.{arrow_if, arrows_if, is_at_node, is_drawn_red, is_in_red, is_kept_arrow};

use lt_base::{List, Memory};
use lt_course::RefusedEvent;
use lt_diagram::{Arrow, Wrong};
use lt_tape::{Window, is_on_way};
use std::alloc::Global;

fn is_at_node(node: Option<u32>, arrow: Arrow) -> bool
    ensures { result ≡ is_at_node node arrow }
{
    match node {
        None => true,
        Some(node) => arrow.from == node || arrow.to == node,
    }
}

fn is_in_red(wrong: Wrong, arrow: Arrow) -> bool
    ensures { result ≡ is_in_red wrong arrow }
{
    match wrong {
        Wrong::Untimely {
            from,
            to,
            sent,
            come: _,
        } => arrow.from == from && (arrow.to == to && arrow.sent == sent),
        Wrong::Moment => false,
        Wrong::Absent { node: _, due: _ } => false,
        Wrong::Soon {
            node: _,
            last: _,
            least: _,
        } => false,
        Wrong::Gone {
            from: _,
            to: _,
            sent: _,
        } => false,
        Wrong::Unsent { from: _, to: _ } => false,
    }
}

fn is_drawn_red(refused: &Option<RefusedEvent>, arrow: Arrow) -> bool
    ensures { result ≡ is_drawn_red refused.now arrow }
{
    match refused {
        None => false,
        Some(refused) => is_in_red(refused.wrong, arrow),
    }
}

fn is_kept_arrow(
    window: Window,
    node: Option<u32>,
    refused: &Option<RefusedEvent>,
    arrow: Arrow,
) -> bool
    ensures { result ≡ is_kept_arrow window node refused.now arrow }
{
    is_on_way(window, arrow) && (is_at_node(node, arrow) && !is_drawn_red(refused, arrow))
}

fn add_arrow(
    window: Window,
    node: Option<u32>,
    refused: &Option<RefusedEvent>,
    arrow: Arrow,
    arrows: &mut List<Arrow>,
) -> Result<(), Memory>
    ensures { OnOk result (arrows.new ≡ arrows.old ++ arrow_if window node refused.now arrow) }
{
    if is_kept_arrow(window, node, refused, arrow) {
        arrows.push(arrow)?;
    }
    Ok(())
}

fn add_arrows(
    window: Window,
    node: Option<u32>,
    refused: &Option<RefusedEvent>,
    from: &[Arrow],
    arrows: &mut List<Arrow>,
) -> Result<(), Memory>
    ensures { OnOk result (arrows.new ≡ arrows.old ++ arrows_if window node refused.now from.now) }
{
    'arrows: for arrow in from {
        add_arrow(window, node, refused, *arrow, arrows)?;
    }
    Ok(())
}

/// The messages that are drawn: of those that were delivered, and of those in transit.
pub(crate) fn kept_arrows(
    alloc: Global,
    window: Window,
    node: Option<u32>,
    refused: &Option<RefusedEvent>,
    lines: &[Arrow],
    pending: &[Arrow],
) -> Result<List<Arrow>, Memory>
    ensures { IfOk result (λ arrows. arrows ≡ arrows_if window node refused.now lines.now ++ arrows_if window node refused.now pending.now) }
{
    let mut arrows = List::new(alloc);
    add_arrows(window, node, refused, lines, &mut arrows)?;
    add_arrows(window, node, refused, pending, &mut arrows)?;
    Ok(arrows)
}
