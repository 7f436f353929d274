// Copies, sizes, and what grows.
ghost use Rattle.lt_base.specs.Calls.{NotRecursive};

use crate::texts::tell;
use lt_base::{Clock, Func, Inputs, List, Memory, Program, Value, Whole, sizes};
use std::alloc::Global;

/// Tells the functions of a program, after the program and each of its functions were copied, and its size.
pub fn tell_copies(alloc: Global, line: &mut String, p: &Program) -> Result<(), Memory>
    requires { NotRecursive p.now.funcs }
{
    tell(line, copies(alloc, p)?)?;
    tell(line, sizes(alloc, p)?)
}

fn copies(alloc: Global, p: &Program) -> Result<usize, Memory> {
    match p.copy() {
        Ok(copy) => count_copied(alloc, copy.funcs.as_slice()),
        Err(_) => Err(Memory),
    }
}

// How many of these functions have copies with as many equations.
fn count_copied(alloc: Global, funcs: &[Func]) -> Result<usize, Memory> {
    let mut count = 0usize;
    for f in funcs {
        if is_copied(alloc, f)? {
            count = count.saturating_add(1);
        }
    }
    Ok(count)
}

fn is_copied(alloc: Global, f: &Func) -> Result<bool, Memory> {
    match f.copy() {
        Ok(func) => is_whole_copied(f, &whole_of(alloc, func)),
        Err(_) => Err(Memory),
    }
}

fn whole_of(alloc: Global, func: Func) -> Whole {
    Whole {
        func,
        origin: List::new(alloc),
    }
}

fn is_whole_copied(f: &Func, whole: &Whole) -> Result<bool, Memory> {
    match whole.copy() {
        Ok(copy) => Ok(copy.func.eqs.len() == f.eqs.len()),
        Err(_) => Err(Memory),
    }
}

/// Tells something that grew and was copied.
pub fn tell_grown(alloc: Global, line: &mut String, what: &str) -> Result<(), Memory> {
    if what == "clock" {
        return tell_clock(alloc, line);
    }
    if what == "list" {
        return tell_list(alloc, line);
    }
    if what == "bytes" {
        return tell_extended(alloc, line);
    }
    if what == "table" {
        return tell_table(alloc, line);
    }
    Err(Memory)
}

fn tell_clock(alloc: Global, line: &mut String) -> Result<(), Memory> {
    match Clock::base(alloc).deeper(3, true) {
        Ok(clock) => tell_clock_copy(line, &clock),
        Err(_) => Err(Memory),
    }
}

fn tell_clock_copy(line: &mut String, clock: &Clock) -> Result<(), Memory> {
    match clock.copy() {
        Ok(copy) => tell(line, copy.steps.as_slice()),
        Err(_) => Err(Memory),
    }
}

fn tell_list(alloc: Global, line: &mut String) -> Result<(), Memory> {
    let mut numbers = List::from_slice(alloc, &[1u32, 2])?;
    numbers.push(3)?;
    tell_list_copy(line, &numbers)
}

fn tell_list_copy(line: &mut String, numbers: &List<u32>) -> Result<(), Memory> {
    match numbers.copy() {
        Ok(copy) => tell(line, copy.as_slice()),
        Err(_) => Err(Memory),
    }
}

fn tell_extended(alloc: Global, line: &mut String) -> Result<(), Memory> {
    let mut bytes = List::new(alloc);
    bytes.extend(b"ab")?;
    tell(line, bytes.as_slice())
}

fn tell_table(alloc: Global, line: &mut String) -> Result<(), Memory> {
    let mut inputs = Inputs::new(alloc, 1)?;
    inputs.push(&[Value::Int(7)])?;
    tell(line, inputs.copy()?.value(0, 0))
}
