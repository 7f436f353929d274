// The canonical text of a program that passes all checks.
ghost use Rattle.std.specs.Prelude.{◌<◌, ◌^◌, length};
ghost use Rattle.lt_answer.specs.Answered.{Settles};
ghost use Rattle.lt_front.specs.Printed.{printed_verdict};

use crate::check_program;
use lt_base::{List, Or};
use lt_front::{ProgramFault, print_passing};
use lt_print::print;
use std::alloc::Global;

/// The canonical text of the program of a text, after the checks of `check_program`. The tree is printed before its names are resolved,
/// and then taken apart; where a check fails `check_program` goes over the bytes again, and its fault has the tree that it speaks of.
pub fn print_program(alloc: Global, bytes: &[u8]) -> Result<List<u8>, Or<ProgramFault>>
    requires { length bytes.now < 2 ^ 32 }
    ensures { Settles (printed_verdict bytes.now) result }
{
    match print_passing(alloc, bytes)? {
        Some(text) => Ok(text),
        None => checked_text(alloc, bytes),
    }
}

// The same without taking the tree apart.
fn checked_text(alloc: Global, bytes: &[u8]) -> Result<List<u8>, Or<ProgramFault>>
    requires { length bytes.now < 2 ^ 32 }
    ensures { Settles (printed_verdict bytes.now) result }
{
    let examined = check_program(alloc, bytes)?;
    Ok(print(alloc, &examined.tree)?)
}
