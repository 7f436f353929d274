// The legend.
ghost use Rattle.std.specs.Prelude.{◌≡◌, ◌++◌, ◌<◌, ◌≤◌, ◌^◌, length, IfOk, OnOk};
ghost use Rattle.lt_draw.specs.Legend.{entry_text, is_lost, is_pending, has_ink, has_lost, has_pending, entry_if, deed_entries, pale_entries, message_entries, fate_entries, entries_of, columns, drawn_entry, drawn_legend, legend_height};

use crate::sizes::bounded_width;
use lt_base::{List, Memory};
use lt_diagram::{Arrow, Chart, Fate, Ink, Picture, bottom, is_same_ink};
use lt_svg::fill;
use std::alloc::Global;

/// What the legend explains.
#[derive(Clone, Copy, Drop)]
pub enum Entry {
    Executes,
    Sends,
    Nothing,
    Message,
    WithoutValues,
    Again,
    Acknowledgement,
    Lost,
    Pending,
    Tint,
    Ruled,
}

#[tactic(auto, unfolding(crate::specs::Legend::entry_text))]
fn entry_text(entry: Entry) -> &'static [u8]
    ensures { result.now ≡ entry_text entry }
{
    match entry {
        Entry::Executes => {
            b"<rect x=\"6\" y=\"-12\" width=\"16\" height=\"16\" rx=\"8\" class=\"ex\"/><text x=\"14\" y=\"-1\" class=\"exn m n\">3</text><text x=\"30\" class=\"ts s\">executes instant 3</text></g>\n"
        }
        Entry::Sends => {
            b"<path d=\"M8 1h12l-6 -12z\" class=\"se\"/><text x=\"30\" class=\"ts s\">sends</text></g>\n"
        }
        Entry::Nothing => {
            b"<path d=\"M6 -4h16\" class=\"nl\"/><path d=\"M14 -9v10\" class=\"no\"/><text x=\"30\" class=\"ts s\">does nothing</text></g>\n"
        }
        Entry::Message => {
            b"<path d=\"M4 -4h20\" class=\"da\" marker-end=\"url(#hda)\"/><text x=\"30\" class=\"ts s\">message</text></g>\n"
        }
        Entry::WithoutValues => {
            b"<path d=\"M4 -4h20\" class=\"em\" marker-end=\"url(#hem)\"/><text x=\"30\" class=\"ts s\">message without values</text></g>\n"
        }
        Entry::Again => {
            b"<path d=\"M4 -4h20\" class=\"em\" marker-end=\"url(#hem)\"/><text x=\"30\" class=\"ts s\">message with nothing new</text></g>\n"
        }
        Entry::Acknowledgement => {
            b"<path d=\"M4 -4h20\" class=\"ac\" marker-end=\"url(#hac)\"/><text x=\"30\" class=\"ts s\">acknowledgement</text></g>\n"
        }
        Entry::Lost => {
            b"<path d=\"M10 -8l8 8m0 -8l-8 8\" class=\"lo\"/><text x=\"30\" class=\"ts s\">lost</text></g>\n"
        }
        Entry::Pending => {
            b"<path d=\"M4 -4h20\" class=\"da w\"/><text x=\"30\" class=\"ts s\">on its way at the end</text></g>\n"
        }
        Entry::Tint => {
            b"<path d=\"M0 -11h9v14h-9z\" class=\"i0\"/><path d=\"M9 -11h9v14h-9z\" class=\"i1\"/><path d=\"M18 -11h9v14h-9z\" class=\"i2\"/><text x=\"30\" class=\"ts s\">instant of a node</text></g>\n"
        }
        Entry::Ruled => {
            b"<path d=\"M4 -4h19\" class=\"bad bd\"/><text x=\"30\" class=\"ts s\">ruled out by bounds</text></g>\n"
        }
    }
}

fn is_lost(fate: Fate) -> bool
    ensures { result ≡ is_lost fate }
{
    match fate {
        Fate::Delivered(_) => false,
        Fate::Lost(_) => true,
        Fate::Pending => false,
    }
}

fn is_pending(fate: Fate) -> bool
    ensures { result ≡ is_pending fate }
{
    match fate {
        Fate::Delivered(_) => false,
        Fate::Lost(_) => false,
        Fate::Pending => true,
    }
}

// Whether some arrow has an ink.
#[tactic(auto, unfolding(crate::specs::Legend::has_ink))]
fn has_ink(ink: Ink, arrows: &[Arrow]) -> bool
    ensures { result ≡ has_ink ink arrows.now }
{
    arrows.iter().any(|arrow| is_same_ink(ink, arrow.ink))
}

#[tactic(auto, unfolding(crate::specs::Legend::has_lost))]
fn has_lost(arrows: &[Arrow]) -> bool
    ensures { result ≡ has_lost arrows.now }
{
    arrows.iter().any(|arrow| is_lost(arrow.fate))
}

#[tactic(auto, unfolding(crate::specs::Legend::has_pending))]
fn has_pending(arrows: &[Arrow]) -> bool
    ensures { result ≡ has_pending arrows.now }
{
    arrows.iter().any(|arrow| is_pending(arrow.fate))
}

fn push_if(list: &mut List<Entry>, wanted: bool, entry: Entry) -> Result<(), Memory>
    ensures { OnOk result (list.new ≡ list.old ++ entry_if wanted entry) }
{
    if wanted {
        return list.push(entry);
    }
    Ok(())
}

#[tactic(auto, unfolding(crate::specs::Legend::deed_entries))]
fn push_deeds(list: &mut List<Entry>) -> Result<(), Memory>
    ensures { OnOk result (list.new ≡ list.old ++ deed_entries) }
{
    push_if(list, true, Entry::Executes)?;
    push_if(list, true, Entry::Sends)?;
    push_if(list, true, Entry::Nothing)
}

// What is explained of pale messages.
#[tactic(auto, unfolding(crate::specs::Legend::pale_entries))]
fn push_pale(list: &mut List<Entry>, is_pale: bool, again: bool) -> Result<(), Memory>
    ensures { OnOk result (list.new ≡ list.old ++ pale_entries is_pale again) }
{
    if again {
        return push_if(list, is_pale, Entry::Again);
    }
    push_if(list, is_pale, Entry::WithoutValues)
}

#[tactic(auto, unfolding(crate::specs::Legend::message_entries))]
fn push_messages(list: &mut List<Entry>, arrows: &[Arrow], again: bool) -> Result<(), Memory>
    ensures { OnOk result (list.new ≡ list.old ++ message_entries arrows.now again) }
{
    push_if(list, has_ink(Ink::Strong, arrows), Entry::Message)?;
    push_pale(list, has_ink(Ink::Pale, arrows), again)?;
    push_if(list, has_ink(Ink::Dashed, arrows), Entry::Acknowledgement)
}

#[tactic(auto, unfolding(crate::specs::Legend::fate_entries))]
fn push_fates(list: &mut List<Entry>, arrows: &[Arrow]) -> Result<(), Memory>
    ensures { OnOk result (list.new ≡ list.old ++ fate_entries arrows.now) }
{
    push_if(list, has_lost(arrows), Entry::Lost)?;
    push_if(list, has_pending(arrows), Entry::Pending)?;
    push_if(list, true, Entry::Tint)
}

#[tactic(auto, unfolding(crate::specs::Legend::entries_of))]
fn push_entries(list: &mut List<Entry>, picture: &Picture) -> Result<(), Memory>
    ensures { OnOk result (list.new ≡ list.old ++ entries_of picture.now) }
{
    push_deeds(list)?;
    push_messages(list, picture.arrows.as_slice(), picture.again)?;
    push_fates(list, picture.arrows.as_slice())?;
    push_if(list, picture.offence.is_some(), Entry::Ruled)
}

/// What the legend of a picture explains.
pub(crate) fn entries_of(alloc: Global, picture: &Picture) -> Result<List<Entry>, Memory>
    ensures { IfOk result (λ list. list ≡ entries_of picture.now) }
{
    let mut list = List::new(alloc);
    push_entries(&mut list, picture)?;
    Ok(list)
}

// How many entries stand side by side.
#[tactic(auto, unfolding(crate::specs::Legend::columns))]
fn columns(width: u32) -> u32
    ensures value { result ≡ columns width }
    ensures some { 1 ≤ result }
    ensures few { result ≤ 10000 }
{
    ((bounded_width(width) - 24) / 180).max(1)
}

/// How high the legend is. No legend has more than 100 entries.
#[tactic(auto, unfolding(crate::specs::Legend::legend_height))]
pub(crate) fn legend_height(width: u32, entries: &[Entry]) -> u64
    ensures value { result ≡ legend_height width entries.now }
    ensures low { result ≤ 2020 }
{
    let rows = entries.len().min(100) as u64 / u64::from(columns(width));
    20 * (rows + 1)
}

#[tactic(auto, unfolding(crate::specs::Legend::drawn_entry))]
fn write_entry(
    out: &mut List<u8>,
    columns: u32,
    top: u64,
    place: usize,
    entry: Entry,
) -> Result<(), Memory>
    requires some { 1 ≤ columns }
    requires top { top < 2 ^ 42 }
    ensures { OnOk result (out.new ≡ out.old ++ drawn_entry columns top place entry) }
{
    let place = place.min(100) as u32;
    let x = 12 + 180 * u64::from(place % columns);
    let y = top + 20 * u64::from(place / columns);
    fill(out, b"<g transform=\"translate(% %)\">", &[x, y])?;
    out.extend(entry_text(entry))
}

/// Appends the legend, below the axis.
pub(crate) fn write_legend(
    out: &mut List<u8>,
    chart: &Chart,
    width: u32,
    entries: &[Entry],
) -> Result<(), Memory>
    ensures { OnOk result (out.new ≡ out.old ++ drawn_legend chart.now width entries.now) }
{
    let beside = columns(width);
    let top = bottom(chart) + 46;
    'entries: for k in 0..entries.len() {
        write_entry(out, beside, top, k, entries[k])?;
    }
    Ok(())
}
