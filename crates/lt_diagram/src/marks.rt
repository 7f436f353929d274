// The marks of activations.
ghost use Rattle.std.specs.Prelude.{◌≡◌, ◌+◌, ◌<◌, ◌++◌, drop, length, List as Items, OnOk};
ghost use Rattle.lt_diagram.specs.declared.picture.Mark.{Mark as OfMark};
ghost use Rattle.lt_diagram.specs.Marks.{row_name, mark_size, arrow_end, half_width, drawn_pill, drawn_number, drawn_instant, drawn_sending, drawn_idleness, execution_words, drawn_execution, sending_words, drawn_sent, drawn_idle, drawn_sign, mark_opening, drawn_name, drawn_mark, mark_piece, drawn_marks};

use crate::chart::{Chart, is_within, x_at, y_at};
use crate::picture::{Mark, Sign};
use lt_base::{List, Memory, Name};
use lt_svg::{escape, fill};

/// How large marks are.
#[derive(Clone, Copy)]
pub enum Size {
    /// Instants have their numbers inside.
    Full,
    /// Instants are dots, some of them with their numbers above.
    Dots,
    /// Instants are smaller dots.
    Small,
}

/// How marks are drawn.
#[derive(Clone, Copy)]
pub struct Style {
    pub size: Size,
    /// Of dots, how many go to one with a number above.
    pub every: u64,
}

/// The name of a node, and of another number nothing.
pub(crate) fn row_name(names: &[Name], node: u32) -> &[u8]
    ensures { result.now ≡ row_name names.now node }
{
    match names.get(node as usize) {
        Some(name) => name.as_str().as_bytes(),
        None => b"",
    }
}

/// The marks behind one of them.
pub(crate) fn marks_behind(marks: &[Mark], k: usize) -> &[Mark]
    requires { k < length marks.now }
    ensures { result.now ≡ drop (k + 1) marks.now }
{
    &marks[k + 1..]
}

/// The size of marks with so much between the closest of a node.
pub(crate) fn mark_size(gap: u64) -> Size
    ensures { result ≡ mark_size gap }
{
    if 17 <= gap {
        return Size::Full;
    }
    if 7 <= gap {
        return Size::Dots;
    }
    Size::Small
}

/// How far before a node's line the arrows to it end.
pub fn arrow_end(size: Size) -> u8
    ensures { result ≡ arrow_end size }
{
    match size {
        Size::Full => 6,
        Size::Dots => 2,
        Size::Small => 2,
    }
}

// Half of how wide the mark of an instant is.
fn half_width(instant: u32) -> u8
    ensures { result ≡ half_width instant }
{
    if instant < 10 {
        return 8;
    }
    if instant < 100 {
        return 9;
    }
    if instant < 1_000 {
        return 12;
    }
    if instant < 10_000 {
        return 15;
    }
    21
}

// An instant with its number inside.
#[tactic(auto, unfolding(crate::specs::Marks::drawn_pill))]
fn pill(out: &mut List<u8>, instant: u32) -> Result<(), Memory>
    ensures { OnOk result (out.new ≡ out.old ++ drawn_pill instant) }
{
    let half = u64::from(half_width(instant));
    fill(
        out,
        b"<rect x=\"-%\" y=\"-8\" width=\"%\" height=\"16\" rx=\"8\" class=\"ex\"/><text y=\"3\" class=\"exn m n\">%</text>",
        &[half, 2 * half, u64::from(instant)],
    )
}

// The number above a dot.
#[tactic(auto, unfolding(crate::specs::Marks::drawn_number))]
fn number_above(out: &mut List<u8>, style: Style, instant: u32) -> Result<(), Memory>
    ensures { OnOk result (out.new ≡ out.old ++ drawn_number style instant) }
{
    if u64::from(instant) % style.every.max(1) == 0 {
        return fill(
            out,
            b"<text y=\"-7\" class=\"tx m n hl\">%</text>",
            &[u64::from(instant)],
        );
    }
    Ok(())
}

// A dot, with its number where it has one.
fn write_dot(out: &mut List<u8>, dot: &[u8], style: Style, instant: u32) -> Result<(), Memory>
    ensures { OnOk result (out.new ≡ out.old ++ (dot.now ++ drawn_number style instant)) }
{
    out.extend(dot)?;
    number_above(out, style, instant)
}

#[tactic(auto, unfolding(crate::specs::Marks::drawn_instant))]
fn instant_shape(out: &mut List<u8>, style: Style, instant: u32) -> Result<(), Memory>
    ensures { OnOk result (out.new ≡ out.old ++ drawn_instant style instant) }
{
    match style.size {
        Size::Full => pill(out, instant),
        Size::Dots => write_dot(out, b"<circle r=\"4\" class=\"ex\"/>", style, instant),
        Size::Small => write_dot(out, b"<circle r=\"2\" class=\"ex\"/>", style, instant),
    }
}

#[tactic(auto, unfolding(crate::specs::Marks::drawn_sending))]
fn sending_shape(size: Size) -> &'static [u8]
    ensures { result.now ≡ drawn_sending size }
{
    match size {
        Size::Full => b"<path d=\"M-6 5h12l-6 -12z\" class=\"se\"/>",
        Size::Dots => b"<path d=\"M-3 2h6l-3 -6z\" class=\"se\"/>",
        Size::Small => b"<path d=\"M-2 1h4l-2 -4z\" class=\"se\"/>",
    }
}

#[tactic(auto, unfolding(crate::specs::Marks::drawn_idleness))]
fn idle_shape(size: Size) -> &'static [u8]
    ensures { result.now ≡ drawn_idleness size }
{
    match size {
        Size::Full => b"<path d=\"M0 -5v10\" class=\"no\"/>",
        Size::Dots => b"<path d=\"M0 -3v6\" class=\"no\"/>",
        Size::Small => b"<path d=\"M0 -2v4\" class=\"no\"/>",
    }
}

#[tactic(auto, unfolding(crate::specs::Marks::execution_words))]
fn say_execution(out: &mut List<u8>, instant: u32) -> Result<(), Memory>
    ensures { OnOk result (out.new ≡ out.old ++ execution_words instant) }
{
    fill(out, b" executes instant %</title>", &[u64::from(instant)])
}

#[tactic(auto, unfolding(crate::specs::Marks::drawn_execution))]
fn write_execution(out: &mut List<u8>, style: Style, instant: u32) -> Result<(), Memory>
    ensures { OnOk result (out.new ≡ out.old ++ drawn_execution style instant) }
{
    say_execution(out, instant)?;
    instant_shape(out, style, instant)
}

#[tactic(auto, unfolding(crate::specs::Marks::sending_words))]
fn say_sending(out: &mut List<u8>, message: u32) -> Result<(), Memory>
    ensures { OnOk result (out.new ≡ out.old ++ sending_words message) }
{
    fill(out, b" sends message %</title>", &[u64::from(message)])
}

fn write_triangle(out: &mut List<u8>, size: Size) -> Result<(), Memory>
    ensures { OnOk result (out.new ≡ out.old ++ drawn_sending size) }
{
    out.extend(sending_shape(size))
}

#[tactic(auto, unfolding(crate::specs::Marks::drawn_sent))]
fn write_sent(out: &mut List<u8>, size: Size, message: u32) -> Result<(), Memory>
    ensures { OnOk result (out.new ≡ out.old ++ drawn_sent size message) }
{
    say_sending(out, message)?;
    write_triangle(out, size)
}

fn write_stroke(out: &mut List<u8>, size: Size) -> Result<(), Memory>
    ensures { OnOk result (out.new ≡ out.old ++ drawn_idleness size) }
{
    out.extend(idle_shape(size))
}

#[tactic(auto, unfolding(crate::specs::Marks::drawn_idle))]
fn write_idle(out: &mut List<u8>, size: Size) -> Result<(), Memory>
    ensures { OnOk result (out.new ≡ out.old ++ drawn_idle size) }
{
    out.extend(b" does nothing</title>")?;
    write_stroke(out, size)
}

// Appends what a mark says, and its shape.
#[tactic(auto, unfolding(crate::specs::Marks::drawn_sign))]
fn sign_shape(out: &mut List<u8>, style: Style, sign: Sign) -> Result<(), Memory>
    ensures { OnOk result (out.new ≡ out.old ++ drawn_sign style sign) }
{
    match sign {
        Sign::Nothing => write_idle(out, style.size),
        Sign::Executes(k) => write_execution(out, style, k),
        Sign::Sends(k) => write_sent(out, style.size, k),
    }
}

#[tactic(auto, unfolding(crate::specs::Marks::mark_opening))]
fn open_mark(out: &mut List<u8>, chart: &Chart, mark: Mark) -> Result<(), Memory>
    ensures { OnOk result (out.new ≡ out.old ++ mark_opening chart.now mark) }
{
    fill(
        out,
        b"<g transform=\"translate(% %)\"><title>event % at %: ",
        &[
            x_at(chart, mark.time),
            y_at(chart, mark.node),
            u64::from(mark.event),
            mark.time,
        ],
    )
}

#[tactic(auto, unfolding(crate::specs::Marks::drawn_name))]
fn write_name(out: &mut List<u8>, names: &[Name], node: u32) -> Result<(), Memory>
    ensures { OnOk result (out.new ≡ out.old ++ drawn_name names.now node) }
{
    escape(out, row_name(names, node))
}

// Appends the mark of an activation.
#[tactic(auto, unfolding(crate::specs::Marks::drawn_mark))]
fn write_mark(
    out: &mut List<u8>,
    chart: &Chart,
    style: Style,
    names: &[Name],
    mark: Mark,
) -> Result<(), Memory>
    ensures { OnOk result (out.new ≡ out.old ++ drawn_mark chart.now style names.now mark) }
{
    open_mark(out, chart, mark)?;
    write_name(out, names, mark.node)?;
    sign_shape(out, style, mark.sign)?;
    out.extend(b"</g>\n")
}

#[tactic(auto, unfolding(crate::specs::Marks::mark_piece))]
fn write_within(
    out: &mut List<u8>,
    chart: &Chart,
    style: Style,
    names: &[Name],
    mark: Mark,
) -> Result<(), Memory>
    ensures { (later : Items OfMark) → OnOk result (out.new ≡ out.old ++ mark_piece chart.now style names.now mark later) }
{
    if is_within(chart, mark.time) {
        return write_mark(out, chart, style, names, mark);
    }
    Ok(())
}

/// Appends the marks of the activations in the window, in their order.
pub fn write_marks(
    out: &mut List<u8>,
    chart: &Chart,
    style: Style,
    names: &[Name],
    marks: &[Mark],
) -> Result<(), Memory>
    ensures { OnOk result (out.new ≡ out.old ++ drawn_marks chart.now style names.now marks.now) }
{
    'marks: for k in 0..marks.len() {
        write_within(out, chart, style, names, marks[k])?;
    }
    Ok(())
}
