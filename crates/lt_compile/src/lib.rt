//! The compiler: from the bytes of a program through all checks to its flat form, to its parts on the nodes of a setup, and to a machine
//! of step code for each.
#![tactic(auto)]

mod compile;
pub mod laws;
mod machines;
mod printing;
mod site;
mod tables;

pub use compile::{
    check_program, compile_nodes, compile_part, flatten, front, layout_of, place_program,
};
pub use printing::print_program;
pub use site::Site;
pub use tables::table_nodes;
