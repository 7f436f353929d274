// Programs with the lines of their faults, and their flat forms.

use crate::texts::{tell, tell_bytes};
use lt_base::{Memory, Or};
use lt_compile::{check_program, flatten, front};
use lt_front::{Checked, ProgramFault};
use lt_text_lines::program_line;
use std::alloc::Global;

/// Tells the line of a text's fault; an empty one of a program.
pub fn tell_fault_line(alloc: Global, line: &mut String, text: &[u8]) -> Result<(), Memory> {
    if text.len() > 10_000 {
        return Err(Memory);
    }
    match check_program(alloc, text) {
        Ok(examined) => {
            drop(examined);
            tell_bytes(line, b"")
        }
        Err(Or::Fault(fault)) => {
            let told = tell_line(alloc, line, &fault);
            drop(fault);
            told
        }
        Err(Or::Memory) => Err(Memory),
    }
}

fn tell_line(alloc: Global, line: &mut String, fault: &ProgramFault) -> Result<(), Memory> {
    let text = program_line(alloc, fault)?;
    tell_bytes(line, text.as_slice())
}

/// Tells the number of variables of a program's flat form, as it is made first and again.
pub fn tell_flat_sizes(alloc: Global, line: &mut String, text: &[u8]) -> Result<(), Memory> {
    if text.len() > 10_000 {
        return Err(Memory);
    }
    match front(alloc, text) {
        Ok(checked) => tell_sizes(alloc, line, checked),
        Err(_) => Err(Memory),
    }
}

fn tell_sizes(alloc: Global, line: &mut String, checked: Checked) -> Result<(), Memory> {
    tell(line, variables_of(&checked))?;
    let again = variables_again(alloc, checked)?;
    tell(line, again)
}

// The number of variables of a flat form.
fn variables_of(checked: &Checked) -> usize {
    checked.flat.func.decls.len()
}

// That of the flat form that is made again.
fn variables_again(alloc: Global, checked: Checked) -> Result<usize, Memory> {
    match flatten(alloc, checked.into_examined()) {
        Ok(again) => {
            let variables = variables_of(&again);
            drop(again);
            Ok(variables)
        }
        Err(_) => Err(Memory),
    }
}
