// What a network along a schedule comes to.
use lt_base::{Cell, List};
use lt_place::Layout;

/// What a network has at the end of a schedule.
#[derive(Drop)]
pub struct Replayed<M> {
    /// The cells of each output of `main`, one for each instant that its node has executed.
    pub cells: List<List<Cell>>,
    /// The horizon of the schedule.
    pub horizon: u64,
    /// The machines of the nodes, as they are after their last steps.
    pub machines: List<M>,
    /// The layout of the nodes, as it was given.
    pub layout: Layout,
}
