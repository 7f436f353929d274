//! Machines, which run a function one instant at a time.
#![tactic(auto)]

mod checking;
mod evaluation;
mod imported;
mod instruction;
mod kind;
mod machine;
mod operands;
mod planning;
mod preparing;
mod runs;
mod step_machine;
mod stepping;
mod table_machine;
mod tables;

pub use imported::{ImportedOperators, Operators};
pub use machine::Machine;
pub use step_machine::StepMachine;
pub use table_machine::TableMachine;
