// The controller of a node, of the protocol that its setup names.
ghost use Rattle.std.specs.Prelude.{◌≡◌, ◌<◌, length};
ghost use Rattle.lt_arch.specs.State.{first_phase};
ghost use Rattle.lt_arch.specs.Readers.{send_of, execute_of};
ghost use Rattle.lt_arch.specs.declared.timing.Protocol.TheVariants.{TimeBased as ByTime};
ghost use Rattle.lt_lead.specs.Chosen.{of_either};

use lt_arch::{Controller, Deed, Protocol, Timing};
use lt_bp::BackPressure;
use lt_tb::TimeBased;

/// A controller of either protocol.
#[derive(Drop)]
pub enum NodeController {
    Pressure(BackPressure),
    Counting(TimeBased),
}

impl NodeController {
    /// The controller of this node of a setup, at its start.
    pub fn of_node(timing: &Timing, node: u32) -> NodeController
        requires { node < length timing.now.nodes }
        ensures protocol { ⟦<NodeController as Controller>⟧.protocol result ≡ timing.now.protocol }
        ensures phase { ⟦<NodeController as Controller>⟧.phase result ≡ first_phase timing.now.protocol }
        ensures send { timing.now.protocol ≡ ByTime → ⟦<NodeController as Controller>⟧.send result ≡ send_of timing.now node }
        ensures execute { timing.now.protocol ≡ ByTime → ⟦<NodeController as Controller>⟧.execute result ≡ execute_of timing.now node }
    {
        match timing.protocol {
            Protocol::BackPressure => NodeController::Pressure(BackPressure::new()),
            Protocol::TimeBased => {
                let send = timing.send_of(node);
                let execute = timing.execute_of(node);
                NodeController::Counting(TimeBased::new(send, execute))
            }
        }
    }
}

impl Controller for NodeController {
    ghost protocol = { of_either ⟦<BackPressure as Controller>⟧.protocol ⟦<TimeBased as Controller>⟧.protocol };

    ghost send = { of_either ⟦<BackPressure as Controller>⟧.send ⟦<TimeBased as Controller>⟧.send };

    ghost execute = { of_either ⟦<BackPressure as Controller>⟧.execute ⟦<TimeBased as Controller>⟧.execute };

    ghost phase = { of_either ⟦<BackPressure as Controller>⟧.phase ⟦<TimeBased as Controller>⟧.phase };

    fn wake(&mut self, all_in: bool, any_in: bool, all_ack: bool, more: bool) -> Deed {
        match self {
            NodeController::Pressure(controller) => controller.wake(all_in, any_in, all_ack, more),
            NodeController::Counting(controller) => controller.wake(all_in, any_in, all_ack, more),
        }
    }
}
