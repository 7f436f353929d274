// What stands out: an event that is refused, or an execution with a message too few or too many.
ghost use Rattle.std.specs.Prelude.{◌≡◌, ◌++◌, ◌<◌, ◌^◌, OnOk};
ghost use Rattle.lt_draw.specs.Red.{note_template, drawn_note, over, absence_mark, drawn_absence, haste_mark, drawn_haste, beyond, drawn_course, untimely_mark, drawn_untimely, gone_cross, gone_mark, drawn_gone, unsent_mark, drawn_unsent, drawn_wrong, drawn_band, group_title, drawn_row, drawn_spot, drawn_refusal, drawn_offence, ring_circle, ring_words, ring_mark, drawn_ring};

use lt_base::{List, Memory};
use lt_diagram::{Chart, Offence, Ring, Wrong, bottom, right, tip, write_way, x_at, y_at};
use lt_svg::{enclosed, fill};

fn note_template(chart: &Chart, x: u64) -> &'static [u8]
    ensures { result.now ≡ note_template chart.now x }
{
    if x <= u64::from(chart.left) + u64::from(chart.breadth / 2) {
        return b"<text x=\"%\" y=\"%\" dx=\"5\" class=\"badt s b hl\">";
    }
    b"<text x=\"%\" y=\"%\" dx=\"-5\" class=\"badt s b hl e\">"
}

// Appends words beside a place, on the side with more room.
#[tactic(auto, unfolding(crate::specs::Red::drawn_note))]
fn write_note(out: &mut List<u8>, chart: &Chart, x: u64, y: u64, words: &[u8]) -> Result<(), Memory>
    ensures { OnOk result (out.new ≡ out.old ++ drawn_note chart.now x y words.now) }
{
    fill(out, note_template(chart, x), &[x, y])?;
    enclosed(out, b"", words, b"</text>\n")
}

// Where the words on a node stand: above its line.
#[tactic(auto, unfolding(crate::specs::Red::over))]
fn over(chart: &Chart, node: u32) -> u64
    ensures { result ≡ over chart.now node }
{
    y_at(chart, node).saturating_sub(13)
}

// A dashed ring where a node's activation was due.
#[tactic(auto, unfolding(crate::specs::Red::absence_mark))]
fn mark_absence(out: &mut List<u8>, chart: &Chart, node: u32, due: u64) -> Result<(), Memory>
    ensures { OnOk result (out.new ≡ out.old ++ absence_mark chart.now node due) }
{
    fill(
        out,
        b"<circle cx=\"%\" cy=\"%\" r=\"8\" class=\"bad\" stroke-dasharray=\"3 3\"/>",
        &[x_at(chart, due), y_at(chart, node)],
    )
}

#[tactic(auto, unfolding(crate::specs::Red::drawn_absence))]
fn write_absence(
    out: &mut List<u8>,
    chart: &Chart,
    node: u32,
    due: u64,
    words: &[u8],
) -> Result<(), Memory>
    ensures { OnOk result (out.new ≡ out.old ++ drawn_absence chart.now node due words.now) }
{
    mark_absence(out, chart, node, due)?;
    write_note(out, chart, x_at(chart, due), over(chart, node), words)
}

// A cross where a node is activated, and a line from its last activation to the least time of the next.
#[tactic(auto, unfolding(crate::specs::Red::haste_mark))]
fn mark_haste(
    out: &mut List<u8>,
    chart: &Chart,
    node: u32,
    last: u64,
    least: u64,
    time: u64,
) -> Result<(), Memory>
    ensures { OnOk result (out.new ≡ out.old ++ haste_mark chart.now node last least time) }
{
    let y = y_at(chart, node);
    fill(
        out,
        b"<path d=\"M% %H%m0 -7v14\" class=\"bad bd\"/><path d=\"M% %m-6 -6l12 12m0 -12l-12 12\" class=\"bad\"/>",
        &[
            x_at(chart, last),
            y,
            x_at(chart, least),
            x_at(chart, time),
            y,
        ],
    )
}

#[tactic(auto, unfolding(crate::specs::Red::drawn_haste))]
fn write_haste(
    out: &mut List<u8>,
    chart: &Chart,
    node: u32,
    last: u64,
    least: u64,
    time: u64,
    words: &[u8],
) -> Result<(), Memory>
    ensures { OnOk result (out.new ≡ out.old ++ drawn_haste chart.now node last least time words.now) }
{
    mark_haste(out, chart, node, last, least, time)?;
    write_note(out, chart, x_at(chart, time), over(chart, node), words)
}

// Where the words on a message stand: beyond the line of its receiver.
#[tactic(auto, unfolding(crate::specs::Red::beyond))]
fn beyond(chart: &Chart, from: u32, to: u32) -> u64
    ensures { result ≡ beyond chart.now from to }
{
    if from < to {
        return y_at(chart, to) + 16;
    }
    y_at(chart, to).saturating_sub(9)
}

// From the sender's line to so far before the receiver's.
#[tactic(auto, unfolding(crate::specs::Red::drawn_course))]
fn write_course(
    out: &mut List<u8>,
    chart: &Chart,
    from: u32,
    to: u32,
    before: u8,
    sent: u64,
    come: u64,
) -> Result<(), Memory>
    ensures { OnOk result (out.new ≡ out.old ++ drawn_course chart.now from to before sent come) }
{
    let start = y_at(chart, from);
    let end = tip(chart, from, to, before);
    write_way(out, chart, start, end, sent, come)
}

// The red arrow of a message.
#[tactic(auto, unfolding(crate::specs::Red::untimely_mark))]
fn mark_untimely(
    out: &mut List<u8>,
    chart: &Chart,
    from: u32,
    to: u32,
    sent: u64,
    come: u64,
) -> Result<(), Memory>
    ensures { OnOk result (out.new ≡ out.old ++ untimely_mark chart.now from to sent come) }
{
    write_course(out, chart, from, to, 2, sent, come)?;
    out.extend(b"bad bd\" marker-end=\"url(#hbad)\"/>")
}

#[tactic(auto, unfolding(crate::specs::Red::drawn_untimely))]
fn write_untimely(
    out: &mut List<u8>,
    chart: &Chart,
    from: u32,
    to: u32,
    sent: u64,
    come: u64,
    words: &[u8],
) -> Result<(), Memory>
    ensures { OnOk result (out.new ≡ out.old ++ drawn_untimely chart.now from to sent come words.now) }
{
    mark_untimely(out, chart, from, to, sent, come)?;
    write_note(
        out,
        chart,
        x_at(chart, come),
        beyond(chart, from, to),
        words,
    )
}

// The cross at which a message is lost that had to come.
#[tactic(auto, unfolding(crate::specs::Red::gone_cross))]
fn cross_out(out: &mut List<u8>, chart: &Chart, from: u32, to: u32, time: u64) -> Result<(), Memory>
    ensures { OnOk result (out.new ≡ out.old ++ gone_cross chart.now from to time) }
{
    let x = x_at(chart, time);
    fill(
        out,
        b"bad bd\"/><path d=\"M% %m-5 -5l10 10m0 -10l-10 10\" class=\"bad\"/>",
        &[x, tip(chart, from, to, 13)],
    )
}

// The red arrow of a message that is lost.
#[tactic(auto, unfolding(crate::specs::Red::gone_mark))]
fn mark_gone(
    out: &mut List<u8>,
    chart: &Chart,
    from: u32,
    to: u32,
    sent: u64,
    time: u64,
) -> Result<(), Memory>
    ensures { OnOk result (out.new ≡ out.old ++ gone_mark chart.now from to sent time) }
{
    write_course(out, chart, from, to, 13, sent, time)?;
    cross_out(out, chart, from, to, time)
}

#[tactic(auto, unfolding(crate::specs::Red::drawn_gone))]
fn write_gone(
    out: &mut List<u8>,
    chart: &Chart,
    from: u32,
    to: u32,
    sent: u64,
    time: u64,
    words: &[u8],
) -> Result<(), Memory>
    ensures { OnOk result (out.new ≡ out.old ++ drawn_gone chart.now from to sent time words.now) }
{
    mark_gone(out, chart, from, to, sent, time)?;
    write_note(
        out,
        chart,
        x_at(chart, time),
        beyond(chart, from, to),
        words,
    )
}

// The stub of a message that nobody sent.
#[tactic(auto, unfolding(crate::specs::Red::unsent_mark))]
fn mark_unsent(
    out: &mut List<u8>,
    chart: &Chart,
    from: u32,
    to: u32,
    time: u64,
) -> Result<(), Memory>
    ensures { OnOk result (out.new ≡ out.old ++ unsent_mark chart.now from to time) }
{
    let x = x_at(chart, time);
    let start = tip(chart, from, to, 30);
    let end = tip(chart, from, to, 2);
    fill(
        out,
        b"<path d=\"M% %L% %\" class=\"bad bd\" marker-end=\"url(#hbad)\"/>",
        &[x.saturating_sub(24), start, x, end],
    )
}

#[tactic(auto, unfolding(crate::specs::Red::drawn_unsent))]
fn write_unsent(
    out: &mut List<u8>,
    chart: &Chart,
    from: u32,
    to: u32,
    time: u64,
    words: &[u8],
) -> Result<(), Memory>
    ensures { OnOk result (out.new ≡ out.old ++ drawn_unsent chart.now from to time words.now) }
{
    mark_unsent(out, chart, from, to, time)?;
    write_note(
        out,
        chart,
        x_at(chart, time),
        beyond(chart, from, to),
        words,
    )
}

#[tactic(auto, unfolding(crate::specs::Red::drawn_wrong))]
fn write_wrong(
    out: &mut List<u8>,
    chart: &Chart,
    time: u64,
    words: &[u8],
    wrong: Wrong,
) -> Result<(), Memory>
    ensures { OnOk result (out.new ≡ out.old ++ drawn_wrong chart.now time words.now wrong) }
{
    match wrong {
        Wrong::Moment => Ok(()),
        Wrong::Absent { node, due } => write_absence(out, chart, node, due, words),
        Wrong::Soon { node, last, least } => {
            write_haste(out, chart, node, last, least, time, words)
        }
        Wrong::Untimely {
            from,
            to,
            sent,
            come,
        } => write_untimely(out, chart, from, to, sent, come, words),
        Wrong::Gone { from, to, sent } => write_gone(out, chart, from, to, sent, time, words),
        Wrong::Unsent { from, to } => write_unsent(out, chart, from, to, time, words),
    }
}

// Red ground from a time on, with a line at it.
#[tactic(auto, unfolding(crate::specs::Red::drawn_band))]
fn write_band(out: &mut List<u8>, chart: &Chart, time: u64) -> Result<(), Memory>
    ensures { OnOk result (out.new ≡ out.old ++ drawn_band chart.now time) }
{
    let x = x_at(chart, time);
    let top = u64::from(chart.top);
    let below = bottom(chart);
    fill(
        out,
        b"<rect x=\"%\" y=\"%\" width=\"%\" height=\"%\" class=\"badz\"/><path d=\"M% %V%\" class=\"bad v\"/>\n",
        &[
            x,
            top,
            right(chart).saturating_sub(x),
            below.saturating_sub(top),
            x,
            top.saturating_sub(4),
            below + 6,
        ],
    )
}

// Opens a group under a title.
#[tactic(auto, unfolding(crate::specs::Red::group_title))]
fn write_title(out: &mut List<u8>, title: &List<u8>) -> Result<(), Memory>
    ensures { OnOk result (out.new ≡ out.old ++ group_title title.now) }
{
    enclosed(out, b"<g><title>", title.as_slice(), b"</title>")
}

#[tactic(auto, unfolding(crate::specs::Red::drawn_row))]
fn write_row(out: &mut List<u8>, chart: &Chart, offence: &Offence) -> Result<(), Memory>
    ensures { OnOk result (out.new ≡ out.old ++ drawn_row chart.now offence.now) }
{
    let x = x_at(chart, offence.time);
    let above = u64::from(chart.top.saturating_sub(4));
    write_note(out, chart, x, above, offence.row.as_slice())
}

#[tactic(auto, unfolding(crate::specs::Red::drawn_spot))]
fn write_spot(out: &mut List<u8>, chart: &Chart, offence: &Offence) -> Result<(), Memory>
    ensures { OnOk result (out.new ≡ out.old ++ drawn_spot chart.now offence.now) }
{
    write_wrong(
        out,
        chart,
        offence.time,
        offence.note.as_slice(),
        offence.wrong,
    )
}

// Appends where an event that is refused stands out, and its row.
#[tactic(auto, unfolding(crate::specs::Red::drawn_refusal))]
fn write_refusal(out: &mut List<u8>, chart: &Chart, offence: &Offence) -> Result<(), Memory>
    ensures { OnOk result (out.new ≡ out.old ++ drawn_refusal chart.now offence.now) }
{
    write_band(out, chart, offence.time)?;
    write_row(out, chart, offence)?;
    write_spot(out, chart, offence)
}

/// Appends an event that is refused, under the line of its refusal.
#[tactic(auto, unfolding(crate::specs::Red::drawn_offence))]
pub(crate) fn write_offence(
    out: &mut List<u8>,
    chart: &Chart,
    offence: &Offence,
) -> Result<(), Memory>
    ensures { OnOk result (out.new ≡ out.old ++ drawn_offence chart.now offence.now) }
{
    write_title(out, &offence.refusal)?;
    write_refusal(out, chart, offence)?;
    out.extend(b"</g>\n")
}

// A ring round an execution, and a line from it up to its words.
#[tactic(auto, unfolding(crate::specs::Red::ring_circle))]
fn mark_circle(
    out: &mut List<u8>,
    chart: &Chart,
    above: u64,
    node: u32,
    time: u64,
) -> Result<(), Memory>
    ensures { OnOk result (out.new ≡ out.old ++ ring_circle chart.now above node time) }
{
    let x = x_at(chart, time);
    let y = y_at(chart, node);
    fill(
        out,
        b"<circle cx=\"%\" cy=\"%\" r=\"11\" class=\"bad\"/><path d=\"M% %V%\" class=\"bad bd\"/>",
        &[x, y, x, above, y.saturating_sub(11)],
    )
}

// Which event it is, on the side with more room.
#[tactic(auto, unfolding(crate::specs::Red::ring_words))]
fn write_ring_words(
    out: &mut List<u8>,
    chart: &Chart,
    above: u64,
    event: u32,
    time: u64,
) -> Result<(), Memory>
    ensures { OnOk result (out.new ≡ out.old ++ ring_words chart.now above event time) }
{
    let x = x_at(chart, time);
    fill(out, note_template(chart, x), &[x, above])?;
    fill(out, b"event % at %</text></g>\n", &[u64::from(event), time])
}

#[tactic(auto, unfolding(crate::specs::Red::ring_mark))]
fn mark_ring(
    out: &mut List<u8>,
    chart: &Chart,
    above: u64,
    event: u32,
    node: u32,
    time: u64,
) -> Result<(), Memory>
    ensures { OnOk result (out.new ≡ out.old ++ ring_mark chart.now above event node time) }
{
    mark_circle(out, chart, above, node, time)?;
    write_ring_words(out, chart, above, event, time)
}

/// Appends a ring round an execution with a message too few or too many, under the line that tells of it. Its words stand at this height.
#[tactic(auto, unfolding(crate::specs::Red::drawn_ring))]
pub(crate) fn write_ring(
    out: &mut List<u8>,
    chart: &Chart,
    above: u64,
    ring: &Ring,
) -> Result<(), Memory>
    ensures { OnOk result (out.new ≡ out.old ++ drawn_ring chart.now above ring.now) }
{
    write_title(out, &ring.line)?;
    mark_ring(out, chart, above, ring.event, ring.node, ring.time)
}
