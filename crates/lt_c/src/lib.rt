//! The subset of C that is emitted, as trees: what they mean, that nothing in them is undefined, and their text. A store gives each variable
//! a number: an `int64_t` is its number, a `bool` is 0 or 1.
#![tactic(auto)]

mod bodies;
mod calls;
mod file_head;
pub mod laws;
mod printing;
mod spelling;
mod terms;
mod trees;
mod uses;

pub use calls::Calls;
pub use file_head::head;
pub use printing::{action, expression, node_name, place};
pub use spelling::{name_in, number, value, variable};
pub use trees::{Action, Expression, Function, Symbol, Variable};
pub use uses::{action_calls, calling, calls_and, calls_in, negating, no_calls};
