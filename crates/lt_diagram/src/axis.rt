// The axis, its grid, and the nodes' lines.
ghost use Rattle.std.specs.Prelude.{◌≡◌, ◌++◌, ◌*◌, ◌-◌, ◌<◌, ◌^◌, OnOk};
ghost use Rattle.lt_diagram.specs.Axis.{drawn_tick, ticks_from, drawn_ticks, drawn_axis, short_name, node_rail, node_track, label_opening, node_label, drawn_node, node_piece, drawn_nodes};

use crate::chart::{Chart, bottom, right, x_at, y_at};
use crate::scale::nice_step;
use lt_base::{List, Memory, Name};
use lt_svg::{escape, fill};

// A tick with its time, and a line over all rows.
#[tactic(auto, unfolding(crate::specs::Axis::drawn_tick))]
fn write_tick(out: &mut List<u8>, chart: &Chart, time: u64) -> Result<(), Memory>
    ensures { OnOk result (out.new ≡ out.old ++ drawn_tick chart.now time) }
{
    if chart.from <= time {
        let x = x_at(chart, time);
        let below = bottom(chart);
        return fill(
            out,
            b"<path d=\"M% %V%\" class=\"gr\"/><path d=\"M% %v5\" class=\"nl\"/><text x=\"%\" y=\"%\" class=\"ts m s\">%</text>\n",
            &[
                x,
                u64::from(chart.top),
                below,
                x,
                below + 6,
                x,
                below + 23,
                time,
            ],
        );
    }
    Ok(())
}

// The ticks at the multiples of a step from one of them up to another, which is left out.
fn write_multiples(
    out: &mut List<u8>,
    chart: &Chart,
    step: u64,
    first: u64,
    last: u64,
) -> Result<(), Memory>
    requires { last * step < 2 ^ 64 }
    ensures { OnOk result (out.new ≡ out.old ++ ticks_from chart.now step first (last - first)) }
{
    'multiples: for k in first..last {
        let time = k * step;
        write_tick(out, chart, time)?;
    }
    Ok(())
}

// The ticks at the multiples of a step in the window.
#[tactic(auto, using(crate::proofs::Going::quotient_fits), unfolding(crate::specs::Axis::drawn_ticks))]
fn write_ticks(out: &mut List<u8>, chart: &Chart, step: u64) -> Result<(), Memory>
    ensures { OnOk result (out.new ≡ out.old ++ drawn_ticks chart.now step) }
{
    let step = step.max(1);
    let last = chart.to / step;
    write_multiples(out, chart, step, chart.from / step, last)?;
    write_tick(out, chart, last * step)
}

/// Appends the axis, with the least step at which the times have room.
#[tactic(auto, unfolding(crate::specs::Axis::drawn_axis))]
pub fn write_axis(out: &mut List<u8>, chart: &Chart) -> Result<(), Memory>
    ensures { OnOk result (out.new ≡ out.old ++ drawn_axis chart.now) }
{
    let span = chart.to.saturating_sub(chart.from);
    let step = nice_step(u64::from(chart.room), u64::from(chart.breadth), span);
    write_ticks(out, chart, step)?;
    let below = bottom(chart);
    fill(
        out,
        b"<path d=\"M% %H%\" class=\"nl\"/><text x=\"12\" y=\"%\" class=\"ts s\">tick</text>\n",
        &[u64::from(chart.left), below + 6, right(chart), below + 23],
    )
}

// A name, of which the middle is left out where it is long.
#[tactic(auto, unfolding(crate::specs::Axis::short_name))]
fn write_short(out: &mut List<u8>, name: &[u8]) -> Result<(), Memory>
    ensures { OnOk result (out.new ≡ out.old ++ short_name name.now) }
{
    if name.len() <= 16 {
        return escape(out, name);
    }
    escape(out, &name[..10])?;
    out.extend(b"..")?;
    escape(out, &name[name.len() - 4..])
}

#[tactic(auto, unfolding(crate::specs::Axis::node_rail))]
fn write_rail(out: &mut List<u8>, chart: &Chart, node: u32) -> Result<(), Memory>
    ensures { OnOk result (out.new ≡ out.old ++ node_rail chart.now node) }
{
    fill(
        out,
        b"<path d=\"M% %H%\" class=\"nl\"/><g><title>",
        &[u64::from(chart.left), y_at(chart, node), right(chart)],
    )
}

// Appends a node's line, with its whole name to be read aloud.
#[tactic(auto, unfolding(crate::specs::Axis::node_track))]
fn write_track(out: &mut List<u8>, chart: &Chart, node: u32, name: &[u8]) -> Result<(), Memory>
    ensures { OnOk result (out.new ≡ out.old ++ node_track chart.now node name.now) }
{
    write_rail(out, chart, node)?;
    escape(out, name)?;
    out.extend(b"</title>")
}

#[tactic(auto, unfolding(crate::specs::Axis::label_opening))]
fn open_label(out: &mut List<u8>, chart: &Chart, node: u32) -> Result<(), Memory>
    ensures { OnOk result (out.new ≡ out.old ++ label_opening chart.now node) }
{
    fill(
        out,
        b"<text x=\"%\" y=\"%\" class=\"tx e\">",
        &[
            u64::from(chart.left.saturating_sub(14)),
            y_at(chart, node) + 4,
        ],
    )
}

// Appends a node's name beside its line.
#[tactic(auto, unfolding(crate::specs::Axis::node_label))]
fn write_label(out: &mut List<u8>, chart: &Chart, node: u32, name: &[u8]) -> Result<(), Memory>
    ensures { OnOk result (out.new ≡ out.old ++ node_label chart.now node name.now) }
{
    open_label(out, chart, node)?;
    write_short(out, name)?;
    out.extend(b"</text></g>\n")
}

#[tactic(auto, unfolding(crate::specs::Axis::drawn_node))]
fn write_node(out: &mut List<u8>, chart: &Chart, node: u32, name: &[u8]) -> Result<(), Memory>
    ensures { OnOk result (out.new ≡ out.old ++ drawn_node chart.now node name.now) }
{
    write_track(out, chart, node, name)?;
    write_label(out, chart, node, name)
}

// Appends the line of a node, if its number is one of 32 bits.
fn write_place(out: &mut List<u8>, chart: &Chart, place: usize, name: &Name) -> Result<(), Memory>
    ensures { OnOk result (out.new ≡ out.old ++ node_piece chart.now place name.now) }
{
    if place <= 4_294_967_295 {
        return write_node(out, chart, place as u32, name.as_str().as_bytes());
    }
    Ok(())
}

/// Appends the nodes' lines with their names.
pub fn write_nodes(out: &mut List<u8>, chart: &Chart, names: &[Name]) -> Result<(), Memory>
    ensures { OnOk result (out.new ≡ out.old ++ drawn_nodes chart.now names.now) }
{
    'names: for k in 0..names.len() {
        write_place(out, chart, k, &names[k])?;
    }
    Ok(())
}
