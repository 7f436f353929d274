// What a replay of a loaded program answers.
ghost use Rattle.std.specs.Prelude.{◌≡◌, IfOk, length, map};
ghost use Rattle.lt_evaluate.specs.Main.{written_name};

use lt_base::{Cell, Func, List, Memory, Name};
use lt_evaluate::{Outputs, output_names};
use lt_net::Replayed;
use lt_place::Layout;
use std::alloc::Global;
use std::mem::forget;

/// The outputs by name, each with a cell for each instant that its node executed, the horizon of the schedule in ticks, and the
/// machine of each node, which made a step for each of these instants; and the layout of the nodes.
#[derive(Drop)]
pub struct Printed<M> {
    pub names: List<Name>,
    pub cells: List<List<Cell>>,
    pub horizon: u64,
    pub machines: List<M>,
    pub layout: Layout,
    ghost paired: { length names ≡ length cells },
}

/// The outputs of a function by name, with what a replay gave.
pub(crate) fn name_outputs<M: Drop>(
    alloc: Global,
    main: &Func,
    replayed: Replayed<M>,
) -> Result<Printed<M>, Memory>
    requires width { length replayed.cells ≡ length main.now.outs }
    ensures names { IfOk result (λ printed. printed.names ≡ map (written_name main.now) main.now.outs) }
    ensures cells { IfOk result (λ printed. printed.cells ≡ replayed.cells) }
    ensures horizon { IfOk result (λ printed. printed.horizon ≡ replayed.horizon) }
    ensures machines { IfOk result (λ printed. printed.machines ≡ replayed.machines) }
    ensures layout { IfOk result (λ printed. printed.layout ≡ replayed.layout) }
{
    let names = output_names(alloc, main)?;
    Ok(Printed {
        names,
        cells: replayed.cells,
        horizon: replayed.horizon,
        machines: replayed.machines,
        layout: replayed.layout,
    })
}

impl<M: Drop> Printed<M> {
    /// The outputs alone.
    pub fn outputs(self) -> Outputs
        ensures names { result.names ≡ self.names }
        ensures cells { result.cells ≡ self.cells }
    {
        Outputs {
            names: self.names,
            cells: self.cells,
        }
    }

    /// The outputs alone, at the end of a call: neither the machines nor the trees of the layout are taken apart.
    pub(crate) fn into_outputs(self) -> Outputs
        ensures names { result.names ≡ self.names }
        ensures cells { result.cells ≡ self.cells }
    {
        let Printed {
            names,
            cells,
            machines,
            layout,
            ..
        } = self;
        forget(machines);
        forget(layout);
        Outputs { names, cells }
    }
}
