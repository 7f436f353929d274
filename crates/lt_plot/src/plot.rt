// What is drawn, as plain data.
use lt_base::{Cell, List, Name};

/// An output: its stream, and how much of it was printed.
#[derive(Drop)]
pub struct Row {
    pub name: Name,
    /// Whether it was declared as a truth value.
    pub truth: bool,
    /// Its cells in the whole program's stream, from instant 0 on.
    pub cells: List<Cell>,
    /// How many of them the run printed. Without a run it is all of them.
    pub printed: usize,
}

/// A plot: instants to the right, and a row for each output.
#[derive(Drop)]
pub struct Plot {
    /// How wide it is to be.
    pub width: u32,
    /// The first instant that is drawn, and how many are drawn.
    pub first: u32,
    pub count: u32,
    pub title: List<u8>,
    /// A line below the title.
    pub facts: List<u8>,
    /// What an observer says of the run, and empty where none watches.
    pub verdict: List<u8>,
    /// Whether a run is drawn, and the rest of the streams pale.
    pub run: bool,
    /// The outputs, from above.
    pub rows: List<Row>,
    /// The instant of the observer's first failure.
    pub failure: Option<u32>,
}
