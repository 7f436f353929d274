// Small inputs files, with what they read as.
ghost use Rattle.std.specs.Prelude.{◌≡◌, [], IfOk};

use crate::texts::tell;
use lt_base::{Clock, Decl, Func, Inputs, List, Memory, Name, Or, Ty};
use lt_inputs::{InputFault, read_inputs};
use std::alloc::Global;

fn input(alloc: Global, name: &str, ty: Ty) -> Result<Decl, Memory>
    ensures { IfOk result (λ d. d.clock ≡ []) }
{
    Ok(Decl {
        name: Name::from_str(alloc, name)?,
        ty,
        clock: Clock::base(alloc),
    })
}

// A function of these inputs, and of nothing else.
fn function_of(alloc: Global, x: Decl, c: Decl) -> Result<Func, Memory>
    requires x { x.clock ≡ [] }
    requires c { c.clock ≡ [] }
    ensures { IfOk result (λ f. f.n_in ≡ 2) }
{
    let decls = List::of(vec![in alloc; x, c]?);
    Ok(Func::new(
        Name::from_str(alloc, "main")?,
        decls,
        2,
        List::new(alloc),
        List::new(alloc),
    ))
}

// A function of the inputs `x: int` and `c: bool`.
fn function(alloc: Global) -> Result<Func, Memory>
    ensures { IfOk result (λ f. f.n_in ≡ 2) }
{
    let x = input(alloc, "x", Ty::Int)?;
    let c = input(alloc, "c", Ty::Bool)?;
    function_of(alloc, x, c)
}

/// Tells the only row of a table of inputs, or the row and the kind of its fault.
pub fn tell_inputs(alloc: Global, line: &mut String, text: &[u8]) -> Result<(), Memory> {
    match function(alloc) {
        Ok(main) => tell_read(alloc, line, text, &main),
        Err(_) => Err(Memory),
    }
}

fn tell_read(alloc: Global, line: &mut String, text: &[u8], main: &Func) -> Result<(), Memory>
    requires { main.now.n_in ≡ 2 }
{
    match read_inputs(alloc, text, main) {
        Ok(table) => tell_row(line, &table),
        Err(Or::Fault(fault)) => tell_fault(line, fault),
        Err(Or::Memory) => Err(Memory),
    }
}

fn tell_row(line: &mut String, table: &Inputs) -> Result<(), Memory>
    requires { table.now.width ≡ 2 }
{
    if table.rows() != 1 {
        return Err(Memory);
    }
    tell(line, table.value(0, 0))?;
    tell(line, table.value(0, 1))
}

fn tell_fault(line: &mut String, fault: InputFault) -> Result<(), Memory> {
    tell(line, fault.row)?;
    tell(line, fault.kind)
}
