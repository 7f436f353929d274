// Where instants stand.
ghost use Rattle.std.specs.Prelude.{◌≡◌, ◌≤◌, ◌<◌, ◌+◌, ◌^◌, length};
ghost use Rattle.lt_scale.specs.Chart.{picture_width, share_of, window_start, window_end, instant_x, instant_middle, chart_right, instant_width, shows_instant, shows_end};

use lt_base::Cell;
use std::cmp::{max, min};

/// The frame of a picture, in pixels, and the instants that it shows.
#[derive(Clone, Copy, Drop)]
pub struct Chart {
    pub width: u32,
    /// Where the first instant begins.
    pub left: u32,
    /// How wide all instants are.
    pub breadth: u32,
    /// The first instant, and how many are shown.
    pub first: u32,
    pub count: u32,
}

/// How wide a picture is: as is wished, between two bounds.
pub fn picture_width(wish: u32) -> u32
    ensures value { result ≡ picture_width wish }
    ensures least { 400 ≤ result }
    ensures most { result ≤ 10000 }
{
    min(max(wish, 400), 10000)
}

/// As large a part of the room as the part is of the whole, rounded down, and no more than the room.
#[tactic(auto, unfolding(crate::specs::Chart::share_of))]
pub fn share(part: u64, whole: u64, room: u32) -> u32
    ensures value { result ≡ share_of part whole room }
    ensures within { result ≤ room }
{
    let product = u128::from(part) * u128::from(room);
    min(product / u128::from(max(whole, 1)), u128::from(room)) as u32
}

/// The first of a stream's cells that are shown.
#[tactic(auto, unfolding(crate::specs::Chart::window_start))]
pub fn start_of(first: u32, cells: &[Cell]) -> usize
    ensures value { result ≡ window_start first cells.now }
    ensures within { result ≤ length cells.now }
    ensures bounded { result ≤ first }
{
    min(first as usize, cells.len())
}

/// The end of the cells that are shown.
#[tactic(auto, unfolding(crate::specs::Chart::window_start, crate::specs::Chart::window_end))]
pub fn end_of(first: u32, count: u32, cells: &[Cell]) -> usize
    ensures value { result ≡ window_end first count cells.now }
    ensures within { result ≤ length cells.now }
    ensures behind { window_start first cells.now ≤ result }
{
    min(first as usize + count as usize, cells.len())
}

/// Where an instant begins.
#[tactic(auto, unfolding(crate::specs::Chart::instant_x))]
pub fn x_at(chart: &Chart, instant: usize) -> u64
    ensures value { result ≡ instant_x chart.now instant }
    ensures bounded { result < 2 ^ 33 }
{
    let since = (instant as u64).saturating_sub(u64::from(chart.first));
    u64::from(chart.left) + u64::from(share(since, u64::from(chart.count), chart.breadth))
}

/// The middle of an instant.
#[tactic(auto, unfolding(crate::specs::Chart::instant_middle))]
pub fn x_middle(chart: &Chart, instant: usize) -> u64
    requires { instant + 1 < 2 ^ 64 }
    ensures { result ≡ instant_middle chart.now instant }
{
    (x_at(chart, instant) + x_at(chart, instant + 1)) / 2
}

/// Where the last instant ends.
#[tactic(auto, unfolding(crate::specs::Chart::chart_right))]
pub fn right(chart: &Chart) -> u64
    ensures { result ≡ chart_right chart.now }
{
    u64::from(chart.left) + u64::from(chart.breadth)
}

/// How wide an instant is.
#[tactic(auto, unfolding(crate::specs::Chart::instant_width))]
pub fn cell_width(chart: &Chart) -> u32
    ensures { result ≡ instant_width chart.now }
{
    chart.breadth / max(chart.count, 1)
}

/// Whether an instant is shown.
#[tactic(auto, unfolding(crate::specs::Chart::shows_instant))]
pub fn is_shown(chart: &Chart, instant: u64) -> bool
    ensures { result ≡ shows_instant chart.now instant }
{
    u64::from(chart.first) <= instant && instant < u64::from(chart.first) + u64::from(chart.count)
}

/// Whether the beginning of an instant is shown, be it as the end of the one before.
#[tactic(auto, unfolding(crate::specs::Chart::shows_end))]
pub fn is_end_shown(chart: &Chart, instant: u64) -> bool
    ensures { result ≡ shows_end chart.now instant }
{
    u64::from(chart.first) <= instant && instant <= u64::from(chart.first) + u64::from(chart.count)
}
