// How much room the parts of a picture take.
ghost use Rattle.std.specs.Prelude.{◌≡◌, ◌≤◌, IfOk};
ghost use Rattle.lt_diagram.specs.Chart.{digit_count, widest_from, widest, gutter, bounded_width, per_line, line_count, row_height, node_count_of};
ghost use Rattle.lt_draw.specs.Heading.{ring_line, warning, heading_lines, rows_begin, chart_of};

use lt_base::{List, Memory, Name, append_number};
use lt_diagram::{Chart, Picture, Ring};
use std::alloc::Global;

#[tactic(auto, unfolding(lt_diagram::specs::Chart::digit_count))]
fn digit_count(alloc: Global, number: u64) -> Result<u32, Memory>
    ensures value { IfOk result (λ n. n ≡ digit_count number) }
    ensures few { IfOk result (λ n. n ≤ 20) }
{
    let mut text = List::new(alloc);
    append_number(&mut text, number)?;
    Ok(text.len().min(20) as u32)
}

// The length of the longest name, as far as names are shown.
#[tactic(auto, unfolding(lt_diagram::specs::Chart::widest))]
fn widest(names: &[Name]) -> u32
    ensures value { result ≡ widest names.now }
    ensures few { result ≤ 16 }
{
    let mut best = 0u32;
    'names: for name in names {
        best = best.max(name.as_str().len().min(16) as u32);
    }
    best
}

// How much stands to the left of the window.
fn gutter(digits: u32, widest: u32) -> u32
    requires digits { digits ≤ 20 }
    requires widest { widest ≤ 16 }
    ensures value { result ≡ gutter digits widest }
    ensures few { result ≤ 138 }
{
    26 + 7 * (4 + digits / 2).max(widest)
}

/// The width of a picture, within its limits.
pub(crate) fn bounded_width(width: u32) -> u32
    ensures value { result ≡ bounded_width width }
    ensures low { 400 ≤ result }
    ensures high { result ≤ 10000 }
{
    width.max(400).min(10_000)
}

/// How many characters a line has.
pub(crate) fn per_line(width: u32) -> u32
    ensures { result ≡ per_line width }
{
    (bounded_width(width) - 24) / 7
}

/// How many lines of so many characters a text takes.
pub(crate) fn line_count(per: u32, text: &[u8]) -> u32
    ensures value { result ≡ line_count per text.now }
    ensures few { result ≤ 40 }
{
    let length = text.len();
    if length == 0 {
        return 0;
    }
    ((length - 1) / (per.max(1) as usize)).min(39) as u32 + 1
}

fn ring_line(ring: &Option<Ring>) -> &[u8]
    ensures { result.now ≡ ring_line ring.now }
{
    match ring {
        Some(ring) => ring.line.as_slice(),
        None => b"",
    }
}

/// The red lines of a picture.
pub(crate) fn warning(picture: &Picture) -> &[u8]
    ensures { result.now ≡ warning picture.now }
{
    match &picture.offence {
        Some(offence) => offence.refusal.as_slice(),
        None => ring_line(&picture.ring),
    }
}

// How many lines stand above the rows.
#[tactic(auto, unfolding(crate::specs::Heading::heading_lines))]
fn heading_lines(picture: &Picture) -> u32
    ensures value { result ≡ heading_lines picture.now }
    ensures few { result ≤ 120 }
{
    let per = per_line(picture.width);
    let title = line_count(per, picture.title.as_slice());
    let facts = line_count(per, picture.facts.as_slice());
    title + facts + line_count(per, warning(picture))
}

// Where the rows begin.
fn rows_begin(picture: &Picture) -> u32
    ensures { result ≡ rows_begin picture.now }
{
    let is_red = picture.offence.is_some() || picture.ring.is_some();
    16 * heading_lines(picture) + if is_red { 38 } else { 26 }
}

fn row_height(nodes: u32) -> u8
    ensures { result ≡ row_height nodes }
{
    (380 / nodes.max(1)).min(84).max(40) as u8
}

fn node_count_of(names: &[Name]) -> u32
    ensures { result ≡ node_count_of names.now }
{
    names.len().min(4_294_967_295) as u32
}

/// The chart of a picture.
#[tactic(auto, unfolding(crate::specs::Heading::chart_of))]
pub(crate) fn chart_of(alloc: Global, picture: &Picture) -> Result<Chart, Memory>
    ensures { IfOk result (λ chart. chart ≡ chart_of picture.now) }
{
    let digits = digit_count(alloc, picture.to)?;
    let left = gutter(digits, widest(picture.names.as_slice()));
    let nodes = node_count_of(picture.names.as_slice());
    Ok(Chart {
        from: picture.from,
        to: picture.to,
        left,
        breadth: bounded_width(picture.width) - left - (6 + 4 * digits),
        top: rows_begin(picture),
        row: row_height(nodes),
        nodes,
        room: (7 * digits + 14).max(48),
    })
}
