// The arrows of messages.
ghost use Rattle.std.specs.Prelude.{◌≡◌, ◌++◌, List as Items, OnOk};
ghost use Rattle.lt_diagram.specs.declared.picture.Arrow.{Arrow as OfArrow};
ghost use Rattle.lt_diagram.specs.Arrows.{tip, distance, drawn_way, ink_class, kind_word, head_by, head_of, has_head, thinness, stroke, event_words, fate_words, ends_words, arrow_words, drawn_cross, drawn_loss, drawn_shaft, arrow_shape, drawn_arrow, is_same_ink, is_drawn, is_crowded, arrow_piece, drawn_arrows};

use crate::chart::{Chart, is_within, x_at, y_at};
use crate::marks::row_name;
use crate::picture::{Arrow, Fate, Ink};
use crate::scale::part_way;
use lt_base::{List, Memory, Name};
use lt_svg::{escape, fill};

/// Where an arrow to a node ends: so far before its line, on the side from which it comes.
#[tactic(auto, unfolding(crate::specs::Arrows::tip))]
pub fn tip(chart: &Chart, from: u32, to: u32, before: u8) -> u64
    ensures { result ≡ tip chart.now from to before }
{
    if from < to {
        return y_at(chart, to).saturating_sub(u64::from(before));
    }
    y_at(chart, to) + u64::from(before)
}

// How far before the receiver's line an arrow ends.
#[tactic(auto, unfolding(crate::specs::Arrows::distance))]
fn distance(fate: Fate, head: u8) -> u8
    ensures { result ≡ distance fate head }
{
    match fate {
        Fate::Delivered(_) => head,
        Fate::Lost(_) => 13,
        Fate::Pending => 0,
    }
}

/// Appends a line between two places by two times, cut off at the window's edges, up to its class.
#[tactic(auto, unfolding(crate::specs::Arrows::drawn_way))]
pub fn write_way(
    out: &mut List<u8>,
    chart: &Chart,
    start: u64,
    end: u64,
    sent: u64,
    come: u64,
) -> Result<(), Memory>
    ensures { OnOk result (out.new ≡ out.old ++ drawn_way chart.now start end sent come) }
{
    let span = come.saturating_sub(sent);
    let before = chart.from.saturating_sub(sent);
    let behind = come.saturating_sub(chart.to);
    fill(
        out,
        b"<path d=\"M% %L% %\" class=\"",
        &[
            x_at(chart, sent),
            part_way(start, end, before, span),
            x_at(chart, come),
            part_way(end, start, behind, span),
        ],
    )
}

#[tactic(auto, unfolding(crate::specs::Arrows::ink_class))]
fn ink_class(ink: Ink) -> &'static [u8]
    ensures { result.now ≡ ink_class ink }
{
    match ink {
        Ink::Strong => b"da",
        Ink::Pale => b"em",
        Ink::Dashed => b"ac",
    }
}

#[tactic(auto, unfolding(crate::specs::Arrows::kind_word))]
fn kind_word(ink: Ink) -> &'static [u8]
    ensures { result.now ≡ kind_word ink }
{
    match ink {
        Ink::Strong => b"data ",
        Ink::Pale => b"data ",
        Ink::Dashed => b"ack ",
    }
}

fn head_by(ink: Ink) -> &'static [u8]
    ensures { result.now ≡ head_by ink }
{
    match ink {
        Ink::Strong => b"\" marker-end=\"url(#hda)\"/>",
        Ink::Pale => b"\" marker-end=\"url(#hem)\"/>",
        Ink::Dashed => b"\" marker-end=\"url(#hac)\"/>",
    }
}

// The head of an arrow that ends in the window.
#[tactic(auto, unfolding(crate::specs::Arrows::head_of))]
fn head_of(ink: Ink, is_whole: bool) -> &'static [u8]
    ensures { result.now ≡ head_of ink is_whole }
{
    if is_whole {
        return head_by(ink);
    }
    b"\"/>"
}

// Whether an arrow has a head: the message was delivered in the window.
fn has_head(fate: Fate, chart: &Chart, come: u64) -> bool
    ensures { result ≡ has_head fate chart.now come }
{
    match fate {
        Fate::Delivered(_) => come <= chart.to,
        Fate::Lost(_) => false,
        Fate::Pending => false,
    }
}

fn thinness(is_thin: bool) -> &'static [u8]
    ensures { result.now ≡ thinness is_thin }
{
    if is_thin {
        return b" th";
    }
    b""
}

// How the line of an arrow is drawn, behind its class.
#[tactic(auto, unfolding(crate::specs::Arrows::stroke))]
fn stroke(fate: Fate, is_thin: bool) -> &'static [u8]
    ensures { result.now ≡ stroke fate is_thin }
{
    match fate {
        Fate::Delivered(_) => thinness(is_thin),
        Fate::Lost(_) => thinness(is_thin),
        Fate::Pending => b" w",
    }
}

#[tactic(auto, unfolding(crate::specs::Arrows::event_words))]
fn write_event(out: &mut List<u8>, fate: Fate) -> Result<(), Memory>
    ensures { OnOk result (out.new ≡ out.old ++ event_words fate) }
{
    match fate {
        Fate::Delivered(event) => fill(out, b"event %: ", &[u64::from(event)]),
        Fate::Lost(event) => fill(out, b"event %: ", &[u64::from(event)]),
        Fate::Pending => Ok(()),
    }
}

#[tactic(auto, unfolding(crate::specs::Arrows::fate_words))]
fn fate_words(fate: Fate) -> &'static [u8]
    ensures { result.now ≡ fate_words fate }
{
    match fate {
        Fate::Delivered(_) => b", sent at %, delivered at %</title>",
        Fate::Lost(_) => b", sent at %, lost at %</title>",
        Fate::Pending => b", sent at %, due by %</title>",
    }
}

// The names of two nodes, with an arrow between.
#[tactic(auto, unfolding(crate::specs::Arrows::ends_words))]
fn write_ends(out: &mut List<u8>, names: &[Name], from: u32, to: u32) -> Result<(), Memory>
    ensures { OnOk result (out.new ≡ out.old ++ ends_words names.now from to) }
{
    escape(out, row_name(names, from))?;
    out.extend(b"&gt;")?;
    escape(out, row_name(names, to))
}

// What an arrow says.
#[tactic(auto, unfolding(crate::specs::Arrows::arrow_words))]
fn write_words(out: &mut List<u8>, names: &[Name], arrow: Arrow) -> Result<(), Memory>
    ensures { OnOk result (out.new ≡ out.old ++ arrow_words names.now arrow) }
{
    write_event(out, arrow.fate)?;
    out.extend(kind_word(arrow.ink))?;
    write_ends(out, names, arrow.from, arrow.to)?;
    fill(out, fate_words(arrow.fate), &[arrow.sent, arrow.come])
}

// The cross at which a lost message ends.
#[tactic(auto, unfolding(crate::specs::Arrows::drawn_cross))]
fn write_cross(out: &mut List<u8>, chart: &Chart, arrow: Arrow) -> Result<(), Memory>
    ensures { OnOk result (out.new ≡ out.old ++ drawn_cross chart.now arrow) }
{
    let y = tip(chart, arrow.from, arrow.to, 13);
    fill(
        out,
        b"<path d=\"M% %m-3 -3l7 7m0 -7l-7 7\" class=\"lo\"/>",
        &[x_at(chart, arrow.come), y],
    )
}

#[tactic(auto, unfolding(crate::specs::Arrows::drawn_loss))]
fn write_loss(out: &mut List<u8>, chart: &Chart, arrow: Arrow) -> Result<(), Memory>
    ensures { OnOk result (out.new ≡ out.old ++ drawn_loss chart.now arrow) }
{
    match arrow.fate {
        Fate::Delivered(_) => Ok(()),
        Fate::Lost(_) => {
            if is_within(chart, arrow.come) {
                return write_cross(out, chart, arrow);
            }
            Ok(())
        }
        Fate::Pending => Ok(()),
    }
}

// The line of an arrow, from its sender's line to its receiver's.
#[tactic(auto, unfolding(crate::specs::Arrows::drawn_shaft))]
fn write_shaft(
    out: &mut List<u8>,
    chart: &Chart,
    head: u8,
    is_thin: bool,
    arrow: Arrow,
) -> Result<(), Memory>
    ensures { OnOk result (out.new ≡ out.old ++ drawn_shaft chart.now head is_thin arrow) }
{
    let start = y_at(chart, arrow.from);
    let end = tip(chart, arrow.from, arrow.to, distance(arrow.fate, head));
    write_way(out, chart, start, end, arrow.sent, arrow.come)?;
    out.extend(ink_class(arrow.ink))?;
    out.extend(stroke(arrow.fate, is_thin))?;
    out.extend(head_of(arrow.ink, has_head(arrow.fate, chart, arrow.come)))
}

// Appends the line of an arrow and its cross, if it has one.
#[tactic(auto, unfolding(crate::specs::Arrows::arrow_shape))]
fn write_shape(
    out: &mut List<u8>,
    chart: &Chart,
    head: u8,
    is_thin: bool,
    arrow: Arrow,
) -> Result<(), Memory>
    ensures { OnOk result (out.new ≡ out.old ++ arrow_shape chart.now head is_thin arrow) }
{
    write_shaft(out, chart, head, is_thin, arrow)?;
    write_loss(out, chart, arrow)?;
    out.extend(b"</g>\n")
}

// Appends the arrow of a message.
#[tactic(auto, unfolding(crate::specs::Arrows::drawn_arrow))]
pub(crate) fn write_arrow(
    out: &mut List<u8>,
    chart: &Chart,
    names: &[Name],
    head: u8,
    is_thin: bool,
    arrow: Arrow,
) -> Result<(), Memory>
    ensures { OnOk result (out.new ≡ out.old ++ drawn_arrow chart.now names.now head is_thin arrow) }
{
    out.extend(b"<g><title>")?;
    write_words(out, names, arrow)?;
    write_shape(out, chart, head, is_thin, arrow)
}

/// Whether two inks are one.
pub fn is_same_ink(a: Ink, b: Ink) -> bool
    ensures { result ≡ is_same_ink a b }
{
    match (a, b) {
        (Ink::Strong, Ink::Strong) => true,
        (Ink::Strong, Ink::Pale) => false,
        (Ink::Strong, Ink::Dashed) => false,
        (Ink::Pale, Ink::Strong) => false,
        (Ink::Pale, Ink::Pale) => true,
        (Ink::Pale, Ink::Dashed) => false,
        (Ink::Dashed, Ink::Strong) => false,
        (Ink::Dashed, Ink::Pale) => false,
        (Ink::Dashed, Ink::Dashed) => true,
    }
}

// Whether an arrow has the ink that is asked for, and crosses the window.
#[tactic(auto, unfolding(crate::specs::Arrows::is_drawn))]
fn is_drawn(chart: &Chart, ink: Ink, arrow: Arrow) -> bool
    ensures { result ≡ is_drawn chart.now ink arrow }
{
    is_same_ink(ink, arrow.ink) && (arrow.sent <= chart.to && chart.from <= arrow.come)
}

#[tactic(auto, unfolding(crate::specs::Arrows::is_crowded))]
fn is_crowded(chart: &Chart, ink: Ink, arrows: &[Arrow]) -> bool
    ensures { result ≡ is_crowded chart.now ink arrows.now }
{
    arrows
        .iter()
        .filter(|arrow| is_drawn(chart, ink, **arrow))
        .count()
        > 120
}

#[tactic(auto, unfolding(crate::specs::Arrows::arrow_piece))]
fn write_drawn(
    out: &mut List<u8>,
    chart: &Chart,
    names: &[Name],
    head: u8,
    ink: Ink,
    is_thin: bool,
    arrow: Arrow,
) -> Result<(), Memory>
    ensures { (later : Items OfArrow) → OnOk result (out.new ≡ out.old ++ arrow_piece chart.now names.now head ink is_thin arrow later) }
{
    if is_drawn(chart, ink, arrow) {
        return write_arrow(out, chart, names, head, is_thin, arrow);
    }
    Ok(())
}

/// Appends the arrows of one ink that cross the window, in their order. They are thin where they are many.
pub fn write_arrows(
    out: &mut List<u8>,
    chart: &Chart,
    names: &[Name],
    head: u8,
    ink: Ink,
    arrows: &[Arrow],
) -> Result<(), Memory>
    ensures { OnOk result (out.new ≡ out.old ++ drawn_arrows chart.now names.now head ink arrows.now) }
{
    let is_thin = is_crowded(chart, ink, arrows);
    'arrows: for k in 0..arrows.len() {
        write_drawn(out, chart, names, head, ink, is_thin, arrows[k])?;
    }
    Ok(())
}
