// What each command does, a file for each.
pub(crate) mod draw;
pub(crate) mod emit;
pub(crate) mod plot;
pub(crate) mod schedule;
