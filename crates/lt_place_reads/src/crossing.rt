// A delay that crosses from one node to another.

use lt_base::{Duplicate, Memory, Value};

/// A variable of one node that is read on another, by a variable whose equation is a delay of it: nodes and variables by their
/// numbers, and the literal of the delay.
#[derive(Clone, Copy, Debug, PartialEq, Eq)]
pub struct Crossing {
    pub from: u32,
    pub to: u32,
    pub first: Value,
    pub var: u32,
    pub reader: u32,
}

impl Duplicate for Crossing {
    fn duplicate(&self) -> Result<Crossing, Memory> {
        Ok(*self)
    }
}
