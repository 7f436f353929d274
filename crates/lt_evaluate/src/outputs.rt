// What a command prints of a program's streams.
ghost use Rattle.std.specs.Prelude.{◌≡◌, IfOk, length, map};
ghost use Rattle.lt_evaluate.specs.Main.{written_name};

use lt_base::{Cell, Func, List, Memory, Name};
use std::alloc::Global;

/// The names of the outputs, and for each its cells: one for each instant.
#[derive(Drop)]
pub struct Outputs {
    pub names: List<Name>,
    pub cells: List<List<Cell>>,
    ghost paired: { length names ≡ length cells },
}

/// The names of a function's outputs.
pub fn output_names(alloc: Global, main: &Func) -> Result<List<Name>, Memory>
    ensures { IfOk result (λ names. names ≡ map (written_name main.now) main.now.outs) }
{
    main.invariant_holds();
    let mut names = List::new(alloc);
    for y in main.outs.iter() {
        names.push(main.decls[*y as usize].name.copy()?)?;
    }
    Ok(names)
}

/// The outputs of a function, with these cells.
pub(crate) fn print(alloc: Global, main: &Func, cells: List<List<Cell>>) -> Result<Outputs, Memory>
    requires width { length cells ≡ length main.now.outs }
    ensures names { IfOk result (λ outputs. outputs.names ≡ map (written_name main.now) main.now.outs) }
    ensures cells { IfOk result (λ outputs. outputs.cells ≡ cells) }
{
    let names = output_names(alloc, main)?;
    Ok(Outputs { names, cells })
}
