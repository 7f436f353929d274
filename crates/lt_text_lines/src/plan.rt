// What a setup allows: the least countdowns, the cycles, and how many instants a horizon leaves at least.

mod numbers;
mod text;

pub use text::plan_text;
