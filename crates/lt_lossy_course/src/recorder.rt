// The events of a schedule, as they are taken one after another and noted as what they are drawn as.
ghost use Rattle.std.specs.Prelude.{◌≡◌, ◌<◌, ◌*◌, ◌+◌, ◌^◌, ◌++◌, ◌∷◌, [], List as Items, Some, Err, IfErr, IfOk, OnOk};
ghost use Rattle.std.proofs.Common.{◌∙◌, refl};
ghost use Rattle.lt_arch.specs.declared.event.Deed.{Deed};
ghost use Rattle.lt_arch.specs.Readers.{chan_count, node_count};
ghost use Rattle.lt_arch.specs.Shapes.{HaveSameNodes};
ghost use Rattle.lt_audit.specs.Acts.{next_number};
ghost use Rattle.lt_lossy.specs.declared.event.LossyEvent.{LossyEvent as OfEvent};
ghost use Rattle.lt_lossy.specs.Events.{IsLossyEventOf};
ghost use Rattle.lt_lossy.specs.Window.{HasWindow};
ghost use Rattle.lt_schedule.specs.declared.halt.Stop.TheVariants as stops;
ghost use Rattle.lt_lossy_audit.specs.Links.{link_seen};
ghost use Rattle.lt_net_lossy.specs.LossyKeeping.{long_lossy_line};
ghost use Rattle.lt_tape.specs.Tapes.{tape_count};
ghost use Rattle.lt_course.specs.Recorded.{JudgesNextEvent};
ghost use Rattle.lt_course.specs.Recording.{TapesStroke};
ghost use Rattle.lt_lossy_course.specs.LossyCourses.{lossy_drawing_rules, lossy_stopped_at, lossy_whole_course};
ghost use Rattle.lt_lossy_course.specs.LossyRecording.{DrawsLossyRecorded, HasLossyRecorded, KeepsLossyRecorder, lossy_offence_behind, lossy_recorder_rules, lossy_recorder_whole};
ghost use Rattle.lt_lossy_course.specs.LossySketches.{IsLossyDeedDone, lossy_stroke_by};
ghost use Rattle.lt_lossy_course.specs.LossyStrokes.{lossy_pending_on};

use crate::reading::{done_at, executed_at, leaving_at, pending_arrow, placed_message};
use crate::refusing::{mark_for, oldest_read, refused_by};
use crate::sketch::{Leaving, lossy_stroke_by};
use lt_arch::{Shape, Timing};
use lt_audit::Miss;
use lt_base::{List, Memory, Steps};
use lt_course::{Drawable, Recording, Stopped, number_behind, stopped_before};
use lt_diagram::Arrow;
use lt_lossy::{LossyEvent, LossyOffence, read_lossy};
use lt_lossy_audit::LossyAuditor;
use lt_place::Crossing;
use lt_schedule::{Replica, Stop};
use lt_tape::{Asked, Tape};
use std::alloc::Global;
use std::sync::ledger::Ledger;

/// An auditor, and what the events that it has taken are drawn as.
#[derive(Drop)]
pub struct LossyRecorder {
    pub auditor: LossyAuditor,
    pub cross: List<Crossing>,
    pub timing: Timing,
    pub limit: u64,
    pub asked: Asked,
    pub tape: Tape,
    alloc: Global,
}

impl LossyRecorder {
    /// Before the first event, where these variables cross, so many losses in a row are allowed, there are so many rows of inputs, and it is asked which ticks
    /// are drawn.
    pub fn over(
        alloc: Global,
        shape: &Shape,
        timing: &Timing,
        cross: &List<Crossing>,
        limit: u64,
        rows: u32,
        asked: Asked,
    ) -> Result<LossyRecorder, Memory>
        requires same { HaveSameNodes shape.now timing.now }
        requires window { HasWindow timing.now }
        requires numbered { 2 * (node_count shape.now + chan_count shape.now) < 2 ^ 32 }
        ensures fresh { IfOk result (λ r. HasLossyRecorded r []) }
        ensures cross { IfOk result (λ r. r.cross ≡ cross.now) }
        ensures timing { IfOk result (λ r. r.timing ≡ timing.now) }
        ensures limit { IfOk result (λ r. r.limit ≡ limit) }
        ensures shape { IfOk result (λ r. r.auditor.shape ≡ shape.now) }
        ensures rows { IfOk result (λ r. r.auditor.rows ≡ rows) }
        ensures asked { IfOk result (λ r. r.asked ≡ asked) }
    {
        let auditor = LossyAuditor::start(alloc, shape.copy()?, timing, limit, rows)?;
        Ok(LossyRecorder {
            auditor,
            cross: cross.copy()?,
            timing: timing.copy()?,
            limit,
            asked,
            tape: Tape::new(alloc, asked, shape.nodes.len()),
            alloc,
        })
    }

    // Takes an event where it has no offence.
    fn take<L: Ledger>(&mut self, e: LossyEvent, steps: &mut Steps<L>) -> Result<(), Stop<Stopped>>
        requires event { IsLossyEventOf self.old.auditor.shape e }
        requires stands { (before : Items OfEvent) × HasLossyRecorded self.old before }
        ensures judges { (before : Items OfEvent) → HasLossyRecorded self.old before → JudgesNextEvent (lossy_recorder_rules self.old) before e result }
        ensures takes { OnOk result ((before : Items OfEvent) → HasLossyRecorded self.old before → HasLossyRecorded self.new (before ++ e ∷ [])) }
        ensures cross { self.new.cross ≡ self.old.cross }
        ensures timing { self.new.timing ≡ self.old.timing }
        ensures limit { self.new.limit ≡ self.old.limit }
        ensures asked { self.new.asked ≡ self.old.asked }
        ensures shape { self.new.auditor.shape ≡ self.old.auditor.shape }
        ensures rows { self.new.auditor.rows ≡ self.old.auditor.rows }
    {
        let executed = executed_at(&self.auditor, &e);
        let message = leaving_at(&self.auditor, &e);
        match self.auditor.event(e, steps) {
            Ok(()) => self.note(&e, executed, message),
            Err(offence) => Err(self.stop(&e, offence)),
        }
    }

    // Stops at an event with an offence, with what is drawn of the list.
    fn stop(&self, e: &LossyEvent, offence: LossyOffence) -> Stop<Stopped>
        requires event { IsLossyEventOf self.now.auditor.shape e.now }
        requires stands { (before : Items OfEvent) × HasLossyRecorded self.now before }
        requires offence { (before : Items OfEvent) → HasLossyRecorded self.now before → lossy_offence_behind self.now before e.now ≡ Some offence }
        ensures judges { (before : Items OfEvent) → HasLossyRecorded self.now before → JudgesNextEvent (lossy_recorder_rules self.now) before e.now (Err result) }
    {
        match self.stopped(e, offence) {
            Ok(stopped) => Stop::Offence(stopped),
            Err(_) => Stop::Memory,
        }
    }

    // Notes what an event is drawn as that was taken.
    fn note(&mut self, e: &LossyEvent, executed: u32, message: Leaving) -> Result<(), Stop<Stopped>>
        requires event { IsLossyEventOf self.old.auditor.shape e.now }
        ensures auditor { self.new.auditor ≡ self.old.auditor }
        ensures cross { self.new.cross ≡ self.old.cross }
        ensures timing { self.new.timing ≡ self.old.timing }
        ensures limit { self.new.limit ≡ self.old.limit }
        ensures asked { self.new.asked ≡ self.old.asked }
        ensures tapes { OnOk result ((deed : Deed) × IsLossyDeedDone self.old.auditor e.now deed
            × TapesStroke self.old.tape self.new.tape (lossy_stroke_by self.old.cross self.old.auditor.shape (next_number (tape_count self.old.tape)) deed executed message e.now)) }
        ensures short { IfErr result (λ stop. stop ≡ stops.Memory) }
    {
        let deed = done_at(&self.auditor, e);
        let number = number_behind(self.tape.count());
        let stroke = lossy_stroke_by(
            self.cross.as_slice(),
            self.auditor.shape(),
            number,
            deed,
            executed,
            message,
            e,
        );
        match self.tape.push(stroke) {
            Ok(()) => Ok(()),
            Err(_) => Err(Stop::Memory),
        }
    }

    // What is drawn of a list with an offence at this event.
    fn stopped(&self, e: &LossyEvent, offence: LossyOffence) -> Result<Stopped, Memory>
        requires event { IsLossyEventOf self.now.auditor.shape e.now }
        requires stands { (before : Items OfEvent) × HasLossyRecorded self.now before }
        requires offence { (before : Items OfEvent) → HasLossyRecorded self.now before → lossy_offence_behind self.now before e.now ≡ Some offence }
        ensures { IfOk result (λ x. (before : Items OfEvent) → HasLossyRecorded self.now before
            → x ≡ lossy_stopped_at self.now.asked self.now.cross self.now.auditor.shape self.now.timing self.now.auditor.rows before e.now offence) }
    {
        let last = mark_for(&self.tape, offence);
        let oldest = oldest_read(&self.auditor, offence);
        let shape = self.auditor.shape();
        let refused = refused_by(self.alloc, shape, &self.timing, last, oldest, e, offence)?;
        stopped_before(self.alloc, self, refused)
    }
}

impl Drawable for LossyRecorder {
    ghost asked = { λ r. r.asked };

    ghost draws = { λ r w. DrawsLossyRecorded r w };

    ghost channels = { λ r. chan_count r.auditor.shape };

    ghost transit = { λ r c. lossy_pending_on r.cross r.auditor.shape r.timing (link_seen r.auditor.links) c };

    fn tape(&self) -> &Tape {
        &self.tape
    }

    fn miss(&self) -> Option<Miss> {
        None
    }

    fn channel_count(&self) -> u32 {
        self.auditor.invariant_holds();
        self.auditor.shape().channels.len() as u32
    }

    fn transit_count(&self, channel: u32) -> usize {
        self.auditor.transit_count(channel)
    }

    fn arrow_at(&self, channel: u32, place: usize) -> Arrow {
        let message = placed_message(&self.auditor, channel, place, 0);
        let cross = self.cross.as_slice();
        pending_arrow(&self.auditor, cross, &self.timing, channel, message)
    }
}

impl Replica<()> for LossyRecorder {
    type Event = LossyEvent;

    type Offence = Stopped;

    ghost rules = { lossy_recorder_rules };

    ghost stands = { λ a outside steps before. HasLossyRecorded a before };

    ghost keeps = { λ a v b w. KeepsLossyRecorder a b };

    ghost faults = { λ outside. 0 };

    ghost prompt = { λ outside. ⊥ };

    fn take_line<L: Ledger>(
        &mut self,
        line: &[u8],
        _outside: &mut (),
        steps: &mut Steps<L>,
    ) -> Result<(), Stop<Stopped>> {
        self.auditor.invariant_holds();
        match read_lossy(line, self.auditor.shape()) {
            Err(fault) => Err(Stop::Row(fault)),
            Ok(e) => self.take(e, steps),
        }
    }

    fn missing(&self) -> Option<Stopped> {
        None
    }

    ghost long = { λ r line long. long_lossy_line r.auditor.shape line long };

    ghost keeps_same = { λ r w. (refl, refl, refl, refl, refl, refl) };

    ghost keeps_on = { λ a u b v c w x y. (y.0 ∙ x.0, y.1 ∙ x.1, y.2 ∙ x.2, y.3 ∙ x.3, y.4 ∙ x.4, y.5 ∙ x.5) };

    ghost keeps_rules = { λ a v b w x. λ i. lossy_drawing_rules (x.5 i) (x.0 i) (x.3 i) (x.1 i) (x.2 i) (x.4 i) };

    ghost keeps_prompt = { λ a v b w x prompt. prompt };
}

impl Recording for LossyRecorder {
    ghost whole = { lossy_recorder_whole };

    fn is_ended(&self) -> bool {
        self.auditor.reached().is_some()
    }

    ghost calm = { λ outside. refl };

    ghost draws_whole = { λ a outside steps es recorded. (es, recorded, refl) };

    ghost keeps_asked = { λ a v b w x. x.5 };

    ghost keeps_whole = { λ a v b w x. λ i es. lossy_whole_course (x.0 i) (x.3 i) (x.1 i) (x.4 i) es };
}
