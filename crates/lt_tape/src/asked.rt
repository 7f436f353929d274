// Which ticks are to be drawn.

/// The first and the last tick that are to be drawn, where this is asked.
#[derive(Clone, Copy)]
pub struct Asked {
    pub from: Option<u64>,
    pub to: Option<u64>,
}
