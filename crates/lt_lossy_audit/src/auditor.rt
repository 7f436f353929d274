// The auditor.
ghost use Rattle.std.specs.Prelude.{◌≡◌, ◌<◌, ◌*◌, ◌+◌, ◌++◌, ◌∷◌, ◌^◌, ◌≤◌, [], ℕ, List, IfOk, IfSome, OnOk, OnErr, length, slice_get};
ghost use Rattle.lt_arch.specs.declared.limits.TheConstants.{GREATEST_TIME};
ghost use Rattle.lt_arch.specs.declared.shape.Shape.{Shape as OfShape};
ghost use Rattle.lt_arch.specs.declared.timing.Timing.{Timing as OfTiming};
ghost use Rattle.lt_arch.specs.Readers.{node_count, chan_count};
ghost use Rattle.lt_arch.specs.Shapes.{HaveSameNodes};
ghost use Rattle.lt_lossy.specs.declared.event.LossyEvent.{LossyEvent as OfEvent};
ghost use Rattle.lt_lossy.specs.Events.{IsLossyEventOf};
ghost use Rattle.lt_lossy.specs.Schedule.{lossy_reached};
ghost use Rattle.lt_lossy.specs.Step.{lossy_offence};
ghost use Rattle.lt_lossy.specs.Window.{HasWindow};
ghost use Rattle.lt_lossy_audit.specs.Links.{link_numbers, link_seen, link_send_times};
ghost use Rattle.lt_lossy_audit.specs.Nodes.{node_seen};
ghost use Rattle.lt_lossy_audit.specs.LossyAudit.{IsKeptLossyAudit, JudgesLossyEvent, KnowsLossyDeed, LossyAuditStands};

use crate::audit::LossyAudit;
use lt_arch::{Deed, Shape, Timing};
use lt_base::{Memory, Steps};
use lt_lossy::{LossyEvent, LossyOffence};
use std::alloc::Global;
use std::marker::Model;
use std::sync::ledger::Ledger;

/// Judges events over a shape by the bounds of a timing, where links lose messages, and knows what the nodes did and what is in transit on the
/// channels. All its room is taken at the start.
#[derive(Drop)]
pub struct LossyAuditor {
    audit: LossyAudit,
}

impl Model for LossyAuditor {
    ghost use Rattle.lt_lossy_audit.specs.LossyAudit.{LossyAuditState, IsKeptLossyAudit};

    ghost Value = { LossyAuditState };

    ghost view = { λ a. a.audit };

    ghost invariant = { λ a. IsKeptLossyAudit a.audit };
}

impl LossyAuditor {
    /// Before the first event, with so many rows of inputs, where so many losses in a row are allowed on a channel.
    pub fn start(
        alloc: Global,
        shape: Shape,
        timing: &Timing,
        limit: u64,
        rows: u32,
    ) -> Result<LossyAuditor, Memory>
        requires same { HaveSameNodes shape timing.now }
        requires window { HasWindow timing.now }
        requires numbered { 2 * (node_count shape + chan_count shape) < 2 ^ 32 }
        ensures { IfOk result (λ auditor. LossyAuditStands auditor shape timing.now limit rows []) }
    {
        Ok(LossyAuditor {
            audit: LossyAudit::start(alloc, shape, timing, limit, rows)?,
        })
    }

    /// What every auditor keeps, for callers.
    pub fn invariant_holds(&self)
        ensures { IsKeptLossyAudit self.now }
    {
        let _ = &self.audit;
    }

    /// Its nodes and channels.
    pub fn shape(&self) -> &Shape
        ensures { result.now ≡ self.now.shape }
    {
        self.audit.shape()
    }

    /// The horizon, once the end was taken.
    pub fn reached(&self) -> Option<u64>
        ensures { result ≡ self.now.watch.horizon }
    {
        self.audit.reached()
    }

    /// What a node did when it was activated last.
    pub fn did(&self, node: u32) -> Deed
        requires { node < node_count self.now.shape }
        ensures { result ≡ (node_seen self.now.nodes node).did }
    {
        self.audit.seen(node).did
    }

    /// How many instants a node has executed.
    pub fn executed(&self, node: u32) -> u32
        requires { node < node_count self.now.shape }
        ensures { result ≡ (node_seen self.now.nodes node).executed }
    {
        self.audit.seen(node).executed
    }

    /// The number of the newest message that a channel has delivered, and 0 before the first one.
    pub fn newest(&self, channel: u32) -> u32
        requires { channel < chan_count self.now.shape }
        ensures { result ≡ (link_seen self.now.links channel).newest }
    {
        self.audit.link(channel).newest()
    }

    /// How many messages a channel has lost since its last delivery.
    pub fn losses(&self, channel: u32) -> u64
        requires { channel < chan_count self.now.shape }
        ensures { result ≡ (link_seen self.now.links channel).losses }
    {
        self.audit.link(channel).losses()
    }

    /// How many messages are in transit on a channel.
    pub fn transit_count(&self, channel: u32) -> usize
        requires { channel < chan_count self.now.shape }
        ensures { result ≡ length (link_seen self.now.links channel).transit }
    {
        self.audit.link(channel).in_transit()
    }

    /// The number of the message in transit on a channel at this place, the oldest one first.
    pub fn number(&self, channel: u32, place: usize) -> Option<u32>
        requires { channel < chan_count self.now.shape }
        ensures { result ≡ slice_get (link_numbers (link_seen self.now.links channel)) place }
    {
        self.audit.link(channel).number(place)
    }

    /// The send time of the message in transit on a channel at this place, the oldest one first.
    pub fn in_transit(&self, channel: u32, place: usize) -> Option<u64>
        requires { channel < chan_count self.now.shape }
        ensures sent { result ≡ slice_get (link_send_times (link_seen self.now.links channel)) place }
        ensures timely { IfSome result (λ sent. sent ≤ GREATEST_TIME) }
    {
        self.audit.link(channel).sent_at(place)
    }

    /// Judges an event, and takes it where it has no offence. An offence changes nothing.
    pub fn event<L: Ledger>(
        &mut self,
        e: LossyEvent,
        steps: &mut Steps<L>,
    ) -> Result<(), LossyOffence>
        requires { IsLossyEventOf self.old.shape e }
        ensures judges { (s : OfShape) (t : OfTiming) (limit rows : ℕ) (es : List OfEvent) → LossyAuditStands self.old s t limit rows es
            → JudgesLossyEvent (lossy_offence s t limit (lossy_reached s t rows es) e) result }
        ensures takes { OnOk result ((s : OfShape) (t : OfTiming) (limit rows : ℕ) (es : List OfEvent) → LossyAuditStands self.old s t limit rows es
            → LossyAuditStands self.new s t limit rows (es ++ e ∷ [])) }
        ensures deeds { OnOk result ((s : OfShape) (t : OfTiming) (limit rows : ℕ) (es : List OfEvent) → LossyAuditStands self.old s t limit rows es
            → KnowsLossyDeed self.new s rows (lossy_reached s t rows es) e) }
        ensures unchanged { OnErr result (self.new ≡ self.old) }
        ensures shape { self.new.shape ≡ self.old.shape }
    {
        if let Some(offence) = self.audit.judge(&e, steps) {
            return Err(offence);
        }
        self.audit.take(e, steps);
        Ok(())
    }
}
