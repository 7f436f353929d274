// Where times and nodes stand in a picture, in whole numbers from its upper left corner.
ghost use Rattle.std.specs.Prelude.{◌≡◌, ◌+◌, ◌<◌, ◌^◌};
ghost use Rattle.lt_diagram.specs.Chart.{x_at, row_top, y_at, bottom, is_within};

use crate::scale::part_way;

/// The window of a picture, and where it stands.
#[derive(Clone, Copy)]
pub struct Chart {
    /// The first and the last tick of the window.
    pub from: u64,
    pub to: u64,
    /// Where the window begins, and how broad it is.
    pub left: u32,
    pub breadth: u32,
    /// Where the first node's row begins, how high a row is, and how many there are.
    pub top: u32,
    pub row: u8,
    pub nodes: u32,
    /// How much room a time takes below the axis.
    pub room: u32,
}

/// Where a time stands. One outside the window stands at its edge.
#[tactic(auto, unfolding(crate::specs::Chart::x_at))]
pub fn x_at(chart: &Chart, time: u64) -> u64
    ensures { result ≡ x_at chart.now time }
{
    let left = u64::from(chart.left);
    part_way(
        left,
        left + u64::from(chart.breadth),
        time.saturating_sub(chart.from),
        chart.to.saturating_sub(chart.from),
    )
}

/// Where the row of a node begins.
#[tactic(auto, using(crate::proofs::Shares::row_fits), unfolding(crate::specs::Chart::row_top))]
pub(crate) fn row_top(chart: &Chart, node: u32) -> u64
    ensures value { result ≡ row_top chart.now node }
    ensures bounded { result < 2 ^ 41 }
{
    let rows = u64::from(node) * u64::from(chart.row);
    u64::from(chart.top) + rows
}

/// Where the line of a node stands.
#[tactic(auto, unfolding(crate::specs::Chart::y_at))]
pub fn y_at(chart: &Chart, node: u32) -> u64
    ensures value { result ≡ y_at chart.now node }
    ensures bounded { result < 2 ^ 42 }
{
    row_top(chart, node) + u64::from(chart.row / 2)
}

/// Where the last row ends.
#[tactic(auto, unfolding(crate::specs::Chart::bottom))]
pub fn bottom(chart: &Chart) -> u64
    ensures value { result ≡ bottom chart.now }
    ensures bounded { result < 2 ^ 41 }
{
    row_top(chart, chart.nodes)
}

/// Where the window ends.
pub fn right(chart: &Chart) -> u64
    ensures { result ≡ chart.now.left + chart.now.breadth }
{
    u64::from(chart.left) + u64::from(chart.breadth)
}

/// Whether a time is in the window.
pub(crate) fn is_within(chart: &Chart, time: u64) -> bool
    ensures { result ≡ is_within chart.now time }
{
    chart.from <= time && time <= chart.to
}
