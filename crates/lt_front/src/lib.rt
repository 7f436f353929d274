//! The checks of a program's text, each a step from its bytes to a program that has a meaning.
#![tactic(auto)]

mod causality;
mod checked;
mod checks;
mod examined;
mod fault;
mod named;
mod printing;
mod refusals;

pub use checked::Checked;
pub use checks::{
    check_causality, check_clocks, check_sizes, check_types, parse_text, resolve_names,
};
pub use examined::Examined;
pub use fault::ProgramFault;
pub use named::Named;
pub use printing::print_passing;
