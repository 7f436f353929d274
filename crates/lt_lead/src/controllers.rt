// The controllers of the nodes.
ghost use Rattle.std.specs.Prelude.{IfOk};
ghost use Rattle.lt_lead.specs.Controllers.{AreControllers};

use crate::NodeController;
use lt_arch::{Controller, Timing};
use lt_base::Memory;
use std::alloc::Global;

/// A controller for each node of a timing, at its protocol's start.
pub fn controllers_of(alloc: Global, timing: &Timing) -> Result<Vec<NodeController>, Memory>
    ensures { IfOk result (λ controllers. AreControllers ⟦<NodeController as Controller>⟧ timing.now controllers.items) }
{
    let count = timing.nodes.len();
    let mut controllers = Vec::with_capacity(alloc, count)?;
    for node in 0..count as u32 {
        controllers.push(NodeController::of_node(timing, node))?;
    }
    Ok(controllers)
}
