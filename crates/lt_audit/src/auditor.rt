// The auditor.
ghost use Rattle.std.specs.Prelude.{◌≡◌, ◌<◌, ◌*◌, ◌+◌, ◌-◌, ◌++◌, ◌∷◌, ◌^◌, ◌≤◌, [], ℕ, List, IfOk, IfSome, OnOk, OnErr, length, slice_get};
ghost use Rattle.lt_arch.specs.declared.event.Event.{Event as OfEvent};
ghost use Rattle.lt_arch.specs.declared.shape.Shape.{Shape as OfShape};
ghost use Rattle.lt_arch.specs.declared.timing.Timing.{Timing as OfTiming};
ghost use Rattle.lt_arch.specs.declared.limits.TheConstants.{GREATEST_TIME};
ghost use Rattle.lt_arch.specs.Readers.{node_count, chan_count};
ghost use Rattle.lt_arch.specs.Schedule.{IsEventOf, reached};
ghost use Rattle.lt_arch.specs.Shapes.{HaveSameNodes};
ghost use Rattle.lt_arch.specs.Step.{offence_of};
ghost use Rattle.lt_audit.specs.Audit.{IsKeptAudit, chan_at, member_at};
ghost use Rattle.lt_audit.specs.Misses.{FirstMiss};
ghost use Rattle.lt_audit.specs.Standing.{AuditStands, JudgesEvent, KnowsDeed};

use crate::audit::Audit;
use crate::{AuditFault, Miss};
use lt_arch::{Deed, Event, Shape, Timing};
use lt_base::{Memory, Steps};
use std::alloc::Global;
use std::marker::Model;
use std::sync::ledger::Ledger;

/// Judges events over a shape by the bounds of a timing, with any number of messages in transit on a channel, and knows the first
/// event at which a node executed with a message too few or too many.
#[derive(Drop)]
pub struct Auditor {
    audit: Audit,
}

impl Model for Auditor {
    ghost use Rattle.lt_audit.specs.Audit.{AuditState, IsKeptAudit};

    ghost Value = { AuditState };

    ghost view = { λ a. a.audit };

    ghost invariant = { λ a. IsKeptAudit a.audit };
}

impl Auditor {
    /// Before the first event, with so many rows of inputs.
    pub fn start(alloc: Global, shape: Shape, timing: Timing, rows: u32) -> Result<Auditor, Memory>
        requires same { HaveSameNodes shape timing }
        requires numbered { 2 * (node_count shape + chan_count shape) < 2 ^ 32 }
        ensures { IfOk result (λ auditor. AuditStands auditor shape timing rows []) }
    {
        Ok(Auditor {
            audit: Audit::start(alloc, shape, timing, rows)?,
        })
    }

    /// What every auditor keeps, for callers.
    pub fn invariant_holds(&self)
        ensures { IsKeptAudit self.now }
    {
        let _ = &self.audit;
    }

    /// Its nodes and channels.
    pub fn shape(&self) -> &Shape
        ensures { result.now ≡ self.now.shape }
    {
        self.audit.shape()
    }

    /// How many events it has taken, as far as a number of 32 bits goes.
    pub fn taken_count(&self) -> u32
        ensures { result ≡ self.now.taken }
    {
        self.audit.taken
    }

    /// The horizon, once the end was taken.
    pub fn reached(&self) -> Option<u64>
        ensures { result ≡ self.now.watch.horizon }
    {
        self.audit.reached()
    }

    /// What a node did when it was activated last.
    pub fn did(&self, node: u32) -> Deed
        requires { node < node_count self.now.shape }
        ensures { result ≡ (member_at self.now.members node).did }
    {
        self.audit.did(node)
    }

    /// How many instants a node has executed.
    pub fn executed(&self, node: u32) -> u32
        requires { node < node_count self.now.shape }
        ensures { result ≡ (member_at self.now.members node).executed }
    {
        self.audit.executed(node)
    }

    /// How many messages are in transit on a channel.
    pub fn transit_count(&self, channel: u32) -> usize
        requires { channel < chan_count self.now.shape }
        ensures { result ≡ length (chan_at self.now.chans channel).transit }
    {
        self.audit.transit_count(channel)
    }

    /// The send time of the message in transit on a channel at this place, the oldest one first.
    pub fn in_transit(&self, channel: u32, place: usize) -> Option<u64>
        requires { channel < chan_count self.now.shape }
        ensures sent { result ≡ slice_get (chan_at self.now.chans channel).transit place }
        ensures timely { IfSome result (λ sent. sent ≤ GREATEST_TIME) }
    {
        self.audit.in_transit(channel, place)
    }

    /// Judges an event, and takes it where it has no offence. An offence and want of memory change nothing.
    pub fn event<L: Ledger>(&mut self, e: Event, steps: &mut Steps<L>) -> Result<(), AuditFault>
        requires { IsEventOf self.old.shape e }
        ensures judges { (s : OfShape) (t : OfTiming) (rows : ℕ) (es : List OfEvent) → AuditStands self.old s t rows es
            → JudgesEvent (offence_of s t (reached s t rows es) e) result }
        ensures takes { OnOk result ((s : OfShape) (t : OfTiming) (rows : ℕ) (es : List OfEvent) → AuditStands self.old s t rows es
            → AuditStands self.new s t rows (es ++ e ∷ [])) }
        ensures deeds { OnOk result ((s : OfShape) (t : OfTiming) (rows : ℕ) (es : List OfEvent) → AuditStands self.old s t rows es
            → KnowsDeed self.new s rows (reached s t rows es) e) }
        ensures unchanged { OnErr result (self.new ≡ self.old) }
        ensures shape { self.new.shape ≡ self.old.shape }
    {
        if let Some(offence) = self.audit.judge(&e, steps) {
            return Err(AuditFault::Offence(offence));
        }
        match self.audit.take(e, steps) {
            Ok(()) => Ok(()),
            Err(_) => Err(AuditFault::Memory),
        }
    }

    /// The first event at which a node executed with a message too few or too many. Fewer than 2^32 events were taken.
    pub fn miss(&self) -> Option<Miss>
        requires { self.now.taken < 2 ^ 32 - 1 }
        ensures { (s : OfShape) (t : OfTiming) (rows : ℕ) (es : List OfEvent) → AuditStands self.now s t rows es → FirstMiss s t rows es result }
    {
        self.audit.first
    }
}
