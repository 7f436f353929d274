// Right sides without delays and calls.

use crate::plan::Step;
use lt_base::{Clock, Expr, Value};
use std::alloc::Global;

/// A delay whose right side is not lifted yet.
#[derive(Drop)]
pub struct Waiting<'a> {
    pub clock: Clock,
    pub first: Value,
    /// None is `false`.
    pub right: Option<&'a Expr>,
}

/// What was taken so far by the expressions of a function.
#[derive(Drop)]
pub struct Lifter<'a> {
    pub alloc: Global,
    /// The cells of the variables, and of the calls so far.
    pub cells: Vec<Option<Value>>,
    pub steps: Vec<Step>,
    /// The delays so far, by their numbers.
    pub waiting: Vec<Waiting<'a>>,
}
