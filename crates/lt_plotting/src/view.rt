// What is asked for of a plot, and the instants that it shows.

/// Which instants of a plot are drawn, and how wide it is. `from` and `to` are the first and the last instant.
#[derive(Clone, Copy, Debug, PartialEq, Eq)]
pub struct PlotView {
    pub from: Option<u32>,
    pub to: Option<u32>,
    pub width: Option<u32>,
}

/// Instants one after another: the first of them, and how many they are.
#[derive(Clone, Copy, Debug, PartialEq, Eq)]
pub(crate) struct PlotWindow {
    pub first: u32,
    pub count: u32,
}
