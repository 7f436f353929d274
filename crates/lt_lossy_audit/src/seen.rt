// A node, as its activations show it.
ghost use Rattle.std.specs.Prelude.{◌≡◌, ◌+◌, ℕ, Bool, nat_lt, if◌then◌else◌};
ghost use Rattle.lt_arch.specs.Deeds.{deed_of, phase_after};
ghost use Rattle.lt_arch.specs.Step.{is_execute};
ghost use Rattle.lt_lossy_audit.specs.Nodes.{nothing_seen, phase_seen, sent_seen};

use lt_arch::Deed;

/// Whether a node has executed an instant that it has not sent, how many instants it has executed, and what it did when it was activated last.
#[derive(Clone, Copy)]
pub struct Seen {
    pub ready: bool,
    pub executed: u32,
    pub did: Deed,
}

impl Seen {
    /// A node that was never activated.
    pub fn first() -> Seen
        ensures { result ≡ nothing_seen }
    {
        Seen {
            ready: false,
            executed: 0,
            did: Deed::Nothing,
        }
    }

    /// How many instants it has sent.
    pub fn sent(&self) -> u32
        ensures { result ≡ sent_seen self.now }
    {
        if self.ready {
            self.executed.saturating_sub(1)
        } else {
            self.executed
        }
    }

    /// The node after an activation, where every message or acknowledgement that it waits for is there, and there are so many rows of inputs.
    pub fn woken(&self, all_in: bool, all_ack: bool, rows: u32) -> Seen
        ensures did { (some : Bool) → result.did ≡ deed_of (phase_seen self.now.ready) all_in some all_ack (nat_lt self.now.executed rows) }
        ensures phase { (p q : ℕ) → phase_seen result.ready ≡ phase_after p q (phase_seen self.now.ready) result.did }
        ensures executed { result.executed ≡ (if is_execute result.did then self.now.executed + 1 else self.now.executed) }
    {
        if self.ready {
            return self.answered(all_ack);
        }
        if all_in && self.executed < rows {
            Seen {
                ready: true,
                executed: self.executed + 1,
                did: Deed::Execute,
            }
        } else {
            self.idle()
        }
    }

    // One that has an instant to send, and sends it where all acknowledgements are there.
    fn answered(&self, all_ack: bool) -> Seen
        ensures did { result.did ≡ (if all_ack then Deed.Send else Deed.Nothing) }
        ensures ready { result.ready ≡ (if all_ack then Bool.false else self.now.ready) }
        ensures executed { result.executed ≡ self.now.executed }
    {
        if all_ack {
            Seen {
                ready: false,
                executed: self.executed,
                did: Deed::Send,
            }
        } else {
            self.idle()
        }
    }

    // One that does nothing.
    fn idle(&self) -> Seen
        ensures did { result.did ≡ Deed.Nothing }
        ensures ready { result.ready ≡ self.now.ready }
        ensures executed { result.executed ≡ self.now.executed }
    {
        Seen {
            ready: self.ready,
            executed: self.executed,
            did: Deed::Nothing,
        }
    }
}
