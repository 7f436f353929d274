// A node and its controller.
ghost use Rattle.std.specs.Prelude.{◌≡◌, ◌<◌, ◌≤◌, length};
ghost use Rattle.lt_audit.specs.Starts.{IsAtStart};
ghost use Rattle.lt_audit.specs.Acts.{MemberWakes};

use crate::hearing::Heard;
use lt_arch::{Controller, Deed, Timing};
use lt_lead::NodeController;
use std::marker::Model;

/// The controller of a node, how many instants the node has executed, and what it did when it was activated last.
#[derive(Drop)]
pub struct Member {
    controller: NodeController,
    executed: u32,
    did: Deed,
}

impl Model for Member {
    ghost use Rattle.lt_audit.specs.Audit.{MemberState};

    ghost Value = { MemberState };

    ghost view = { λ m. record {
      protocol = ⟦<NodeController as Controller>⟧.protocol m.controller;
      send = ⟦<NodeController as Controller>⟧.send m.controller;
      execute = ⟦<NodeController as Controller>⟧.execute m.controller;
      phase = ⟦<NodeController as Controller>⟧.phase m.controller;
      executed = m.executed;
      did = m.did;
    } };
}

impl Member {
    /// A node of a setup before its first activation.
    pub fn start(timing: &Timing, node: u32) -> Member
        requires { node < length timing.now.nodes }
        ensures { IsAtStart result timing.now node }
    {
        Member {
            controller: NodeController::of_node(timing, node),
            executed: 0,
            did: Deed::Nothing,
        }
    }

    /// How many instants it has executed.
    pub fn executed(&self) -> u32
        ensures { result ≡ self.now.executed }
    {
        self.executed
    }

    /// What it did when it was activated last, and before that nothing.
    pub fn did(&self) -> Deed
        ensures { result ≡ self.now.did }
    {
        self.did
    }

    /// It is activated, with so many rows of inputs, and hears this.
    #[tactic(auto, using(crate::proofs::Waking::executes_with_more))]
    pub fn wake(&mut self, heard: Heard, rows: u32) -> Deed
        requires { self.old.executed ≤ rows }
        ensures { MemberWakes self.old self.new heard rows result }
    {
        let more = self.executed < rows;
        let deed = self
            .controller
            .wake(heard.all_in, heard.any_in, heard.all_ack, more);
        if matches!(deed, Deed::Execute) {
            self.executed += 1;
        }
        self.did = deed;
        deed
    }
}
