//! What all crates share: values, lists and names, the core program and what it means.
#![tactic(auto)]

mod clock;
mod expression;
mod function;
mod inputs;
pub mod laws;
pub mod limits;
mod list;
mod memory;
mod name;
mod numbers;
mod operators;
mod program;
mod reads;
mod slot;
mod steps;
pub mod tables;
mod value;
mod weights;

pub use clock::Clock;
pub use expression::Expr;
pub use function::{Decl, Equation, Func};
pub use inputs::Inputs;
pub use list::{Duplicate, List};
pub use memory::{Memory, Or};
pub use name::Name;
pub use numbers::{append_number, number_up_to};
pub use operators::{Bin, Imp, Un};
pub use program::{Program, Sizes, Whole};
pub use reads::push_reads;
pub use slot::Slot;
pub use steps::Steps;
pub use tables::{op1, op2};
pub use value::{Cell, Ty, Value};
pub use weights::sizes;
