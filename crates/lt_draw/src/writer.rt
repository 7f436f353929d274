// The text of a picture.
ghost use Rattle.std.specs.Prelude.{◌≡◌, ◌++◌, IfOk, OnOk};
ghost use Rattle.lt_draw.specs.PictureText.{tint_end, drawn_ground, drawn_messages, ring_words_at, drawn_miss, drawn_stop, drawn_red, drawn_deeds, drawn_rows, styled_rows, drawn_above, charted_text, picture_text};

use crate::head::{write_head, write_heading};
use crate::legend::{Entry, entries_of, legend_height, write_legend};
use crate::red::{write_offence, write_ring};
use crate::sizes::chart_of;
use lt_base::{List, Memory};
use lt_diagram::{
    Chart, Ink, Offence, Picture, Ring, Style, arrow_end, bottom, style_of, write_arrows,
    write_axis, write_marks, write_nodes, write_tints,
};
use std::alloc::Global;

// Up to where nodes are at an instant.
fn tint_end(offence: &Option<Offence>, to: u64) -> u64
    ensures { result ≡ tint_end offence.now to }
{
    match offence {
        None => to,
        Some(offence) => offence.time,
    }
}

// Appends what lies below the messages.
#[tactic(auto, unfolding(crate::specs::PictureText::drawn_ground))]
fn write_ground(out: &mut List<u8>, chart: &Chart, picture: &Picture) -> Result<(), Memory>
    ensures { OnOk result (out.new ≡ out.old ++ drawn_ground chart.now picture.now) }
{
    let end = tint_end(&picture.offence, picture.to);
    write_tints(out, chart, end, picture.marks.as_slice())?;
    write_axis(out, chart)?;
    write_nodes(out, chart, picture.names.as_slice())
}

// Appends the messages, the weaker ones below.
#[tactic(auto, unfolding(crate::specs::PictureText::drawn_messages))]
fn write_messages(
    out: &mut List<u8>,
    chart: &Chart,
    style: Style,
    picture: &Picture,
) -> Result<(), Memory>
    ensures { OnOk result (out.new ≡ out.old ++ drawn_messages chart.now style picture.now) }
{
    let names = picture.names.as_slice();
    let arrows = picture.arrows.as_slice();
    let head = arrow_end(style.size);
    write_arrows(out, chart, names, head, Ink::Pale, arrows)?;
    write_arrows(out, chart, names, head, Ink::Dashed, arrows)?;
    write_arrows(out, chart, names, head, Ink::Strong, arrows)
}

// Where the words of a ring stand.
fn ring_words_at(chart: &Chart, offence: &Option<Offence>) -> u64
    ensures { result ≡ ring_words_at chart.now offence.now }
{
    let top = u64::from(chart.top);
    match offence {
        None => top.saturating_sub(4),
        Some(_) => top + 10,
    }
}

#[tactic(auto, unfolding(crate::specs::PictureText::drawn_miss))]
fn write_miss(
    out: &mut List<u8>,
    chart: &Chart,
    above: u64,
    ring: &Option<Ring>,
) -> Result<(), Memory>
    ensures { OnOk result (out.new ≡ out.old ++ drawn_miss chart.now above ring.now) }
{
    match ring {
        None => Ok(()),
        Some(ring) => write_ring(out, chart, above, ring),
    }
}

#[tactic(auto, unfolding(crate::specs::PictureText::drawn_stop))]
fn write_stop(out: &mut List<u8>, chart: &Chart, offence: &Option<Offence>) -> Result<(), Memory>
    ensures { OnOk result (out.new ≡ out.old ++ drawn_stop chart.now offence.now) }
{
    match offence {
        None => Ok(()),
        Some(offence) => write_offence(out, chart, offence),
    }
}

// Appends what stands out.
#[tactic(auto, unfolding(crate::specs::PictureText::drawn_red))]
fn write_red(
    out: &mut List<u8>,
    chart: &Chart,
    offence: &Option<Offence>,
    ring: &Option<Ring>,
) -> Result<(), Memory>
    ensures { OnOk result (out.new ≡ out.old ++ drawn_red chart.now offence.now ring.now) }
{
    write_miss(out, chart, ring_words_at(chart, offence), ring)?;
    write_stop(out, chart, offence)
}

// Appends the activations.
#[tactic(auto, unfolding(crate::specs::PictureText::drawn_deeds))]
fn write_deeds(
    out: &mut List<u8>,
    chart: &Chart,
    style: Style,
    picture: &Picture,
) -> Result<(), Memory>
    ensures { OnOk result (out.new ≡ out.old ++ drawn_deeds chart.now style picture.now) }
{
    write_marks(
        out,
        chart,
        style,
        picture.names.as_slice(),
        picture.marks.as_slice(),
    )
}

#[tactic(auto, unfolding(crate::specs::PictureText::drawn_rows))]
fn write_rows(
    out: &mut List<u8>,
    chart: &Chart,
    style: Style,
    picture: &Picture,
) -> Result<(), Memory>
    ensures { OnOk result (out.new ≡ out.old ++ drawn_rows chart.now style picture.now) }
{
    write_ground(out, chart, picture)?;
    write_messages(out, chart, style, picture)?;
    write_deeds(out, chart, style, picture)?;
    write_red(out, chart, &picture.offence, &picture.ring)
}

// Appends the rows, with marks as large as there is room for.
#[tactic(auto, unfolding(crate::specs::PictureText::styled_rows))]
fn write_styled(out: &mut List<u8>, chart: &Chart, picture: &Picture) -> Result<(), Memory>
    ensures { OnOk result (out.new ≡ out.old ++ styled_rows chart.now picture.now) }
{
    let style = style_of(chart, picture.marks.as_slice());
    write_rows(out, chart, style, picture)
}

// Appends what stands before the rows.
#[tactic(auto, unfolding(crate::specs::PictureText::drawn_above))]
fn write_above(
    out: &mut List<u8>,
    chart: &Chart,
    picture: &Picture,
    entries: &[Entry],
) -> Result<(), Memory>
    ensures { OnOk result (out.new ≡ out.old ++ drawn_above chart.now picture.now entries.now) }
{
    let height = bottom(chart) + 46 + legend_height(picture.width, entries);
    write_head(out, picture, height)?;
    write_heading(out, picture)
}

#[tactic(auto, unfolding(crate::specs::PictureText::charted_text))]
fn write_charted(
    out: &mut List<u8>,
    chart: &Chart,
    picture: &Picture,
    entries: &[Entry],
) -> Result<(), Memory>
    ensures { OnOk result (out.new ≡ out.old ++ charted_text chart.now picture.now entries.now) }
{
    write_above(out, chart, picture, entries)?;
    write_styled(out, chart, picture)?;
    write_legend(out, chart, picture.width, entries)?;
    out.extend(b"</svg>\n")
}

/// The picture as one SVG, which stands alone.
///
/// # Errors
///
/// When memory is short.
#[tactic(auto, unfolding(crate::specs::PictureText::picture_text))]
pub fn write_picture(alloc: Global, picture: &Picture) -> Result<List<u8>, Memory>
    ensures { IfOk result (λ text. text ≡ picture_text picture.now) }
{
    let chart = chart_of(alloc, picture)?;
    let entries = entries_of(alloc, picture)?;
    let mut out = List::new(alloc);
    write_charted(&mut out, &chart, picture, entries.as_slice())?;
    Ok(out)
}
