// What of a schedule is drawn.

/// Which ticks are drawn, and how wide the picture is. `from` and `to` are the first and the last tick.
#[derive(Clone, Copy, Debug, PartialEq, Eq)]
pub struct DrawView {
    pub from: Option<u64>,
    pub to: Option<u64>,
    pub width: Option<u32>,
}
