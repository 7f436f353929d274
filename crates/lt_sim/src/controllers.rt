// The controllers of the nodes.
ghost use Rattle.std.specs.Prelude.{◌≡◌, ◌<◌, IfOk, length, slice_set};
ghost use Rattle.lt_arch.specs.State.{first_phase};
ghost use Rattle.lt_arch.specs.Deeds.{deed_of};
ghost use Rattle.lt_sim.specs.Controlled.{controller_of, controlled_after, AreControlled};

use lt_arch::{Controller, Deed, Timing};
use lt_base::Memory;
use lt_lead::NodeController;
use std::alloc::Global;
use std::marker::Model;

/// The controller of each node.
#[derive(Drop)]
pub struct Controllers {
    items: Vec<NodeController>,
}

impl Model for Controllers {
    ghost use Rattle.std.specs.Prelude.{List, map};
    ghost use Rattle.lt_sim.specs.Controlled.{Controlled};

    ghost Value = { List Controlled };

    ghost view = { λ c. map (λ x. record {
      protocol = ⟦<NodeController as Controller>⟧.protocol x;
      send = ⟦<NodeController as Controller>⟧.send x;
      execute = ⟦<NodeController as Controller>⟧.execute x;
      phase = ⟦<NodeController as Controller>⟧.phase x;
    }) c.items.items };
}

impl Controllers {
    /// The controllers of a setup at their start.
    pub fn start(alloc: Global, timing: &Timing) -> Result<Controllers, Memory>
        ensures { IfOk result (λ controllers. AreControlled timing.now (length timing.now.nodes) (λ n. first_phase timing.now.protocol) controllers) }
    {
        let mut items = Vec::new(alloc);
        for node in 0..timing.node_count() {
            items.push(NodeController::of_node(timing, node))?;
        }
        Ok(Controllers { items })
    }

    /// What a node does when it is activated.
    pub fn wake(&mut self, node: u32, all_in: bool, any_in: bool, all_ack: bool, more: bool) -> Deed
        requires { node < length self.old }
        ensures deed { result ≡ deed_of (controller_of self.old node).phase all_in any_in all_ack more }
        ensures after { self.new ≡ slice_set self.old node (controlled_after (controller_of self.old node) result) }
    {
        self.items[node as usize].wake(all_in, any_in, all_ack, more)
    }
}
