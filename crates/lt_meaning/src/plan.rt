// What is done at an instant.

use crate::node::Node;
use lt_base::{Clock, Value};

/// What is done in a function at each instant.
#[derive(Drop)]
pub struct Plan {
    /// The number of inputs, which have the first cells.
    pub inputs: usize,
    /// The number of cells: one for each variable, and then one for each call.
    pub cells: usize,
    /// The cell of the first output.
    pub output: usize,
    pub steps: Vec<Step>,
    pub delays: Vec<Delay>,
}

/// A cell gets a value, where the clock is present.
#[derive(Drop)]
pub struct Step {
    pub cell: usize,
    pub clock: Clock,
    pub action: Action,
}

/// Where a cell's value comes from.
#[derive(Drop)]
pub enum Action {
    Set(Node),
    /// A call of the function of this number with these arguments.
    Run(usize, Vec<Node>),
}

/// A delay keeps its right side's value, where the clock is present.
#[derive(Drop)]
pub struct Delay {
    pub clock: Clock,
    /// What it has before the first value.
    pub first: Value,
    pub right: Node,
}
