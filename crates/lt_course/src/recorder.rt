// The events of a schedule, as they are taken one after another and noted as what they are drawn as.
ghost use Rattle.std.specs.Prelude.{◌≡◌, ◌<◌, ◌*◌, ◌+◌, ◌^◌, ◌++◌, ◌∷◌, [], List as Items, Some, Err, IfErr, IfOk, OnOk};
ghost use Rattle.std.proofs.Common.{refl, ◌∙◌};
ghost use Rattle.lt_arch.specs.declared.event.Event.{Event as OfEvent};
ghost use Rattle.lt_arch.specs.declared.event.Deed.{Deed};
ghost use Rattle.lt_arch.specs.Readers.{chan_count, node_count};
ghost use Rattle.lt_arch.specs.Schedule.{IsEventOf};
ghost use Rattle.lt_arch.specs.Shapes.{HaveSameNodes};
ghost use Rattle.lt_audit.specs.Audit.{chan_at};
ghost use Rattle.lt_audit.specs.Standing.{JudgesEvent};
ghost use Rattle.lt_schedule.specs.Long.{long_line};
ghost use Rattle.lt_schedule.specs.declared.halt.Stop.TheVariants as stops;
ghost use Rattle.lt_course.specs.Courses.{drawing_rules, stopped_at, whole_course};
ghost use Rattle.lt_course.specs.Recorded.{JudgesNextEvent};
ghost use Rattle.lt_course.specs.Recording.{DrawsRecorded, HasRecorded, KeepsRecorder, TapesStroke, offence_behind, recorder_rules, recorder_whole};
ghost use Rattle.lt_course.specs.Sketches.{IsDeedDone, stroke_by};
ghost use Rattle.lt_course.specs.Strokes.{pending_on};

use crate::course::Stopped;
use crate::drawable::Drawable;
use crate::drawn::stopped_before;
use crate::reading::{done_at, executed_at, first_miss, pending_arrow, sent_at, sent_before};
use crate::recording::Recording;
use crate::refusing::{last_mark_for, oldest_read, refused_by};
use crate::sketch::stroke_by;
use lt_arch::{Event, Offence, Shape, Timing};
use lt_audit::{AuditFault, Auditor, Miss};
use lt_base::{List, Memory, Steps};
use lt_diagram::Arrow;
use lt_place::Crossing;
use lt_rows::PlaceTable;
use lt_schedule::{Replica, Stop};
use lt_tape::{Asked, Tape};
use std::alloc::Global;
use std::sync::ledger::Ledger;

/// An auditor with the names by which events are read, and what the events that it has taken are drawn as.
#[derive(Drop)]
pub struct Recorder {
    pub auditor: Auditor,
    places: PlaceTable,
    pub cross: List<Crossing>,
    pub timing: Timing,
    pub asked: Asked,
    pub tape: Tape,
    alloc: Global,
}

impl Recorder {
    /// Before the first event, where these variables cross, there are so many rows of inputs, and it is asked which ticks are drawn.
    pub fn over(
        alloc: Global,
        shape: &Shape,
        timing: &Timing,
        cross: &List<Crossing>,
        rows: u32,
        asked: Asked,
    ) -> Result<Recorder, Memory>
        requires same { HaveSameNodes shape.now timing.now }
        requires numbered { 2 * (node_count shape.now + chan_count shape.now) < 2 ^ 32 }
        ensures fresh { IfOk result (λ r. HasRecorded r []) }
        ensures cross { IfOk result (λ r. r.cross ≡ cross.now) }
        ensures timing { IfOk result (λ r. r.timing ≡ timing.now) }
        ensures shape { IfOk result (λ r. r.auditor.shape ≡ shape.now) }
        ensures rows { IfOk result (λ r. r.auditor.rows ≡ rows) }
        ensures asked { IfOk result (λ r. r.asked ≡ asked) }
    {
        let places = PlaceTable::new(alloc, shape)?;
        let auditor = Auditor::start(alloc, shape.copy()?, timing.copy()?, rows)?;
        Ok(Recorder {
            auditor,
            places,
            cross: cross.copy()?,
            timing: timing.copy()?,
            asked,
            tape: Tape::new(alloc, asked, shape.nodes.len()),
            alloc,
        })
    }

    // Takes an event where it has no offence.
    fn take<L: Ledger>(&mut self, e: Event, steps: &mut Steps<L>) -> Result<(), Stop<Stopped>>
        requires event { IsEventOf self.old.auditor.shape e }
        requires stands { (before : Items OfEvent) × HasRecorded self.old before }
        ensures judges { (before : Items OfEvent) → HasRecorded self.old before → JudgesNextEvent (recorder_rules self.old) before e result }
        ensures takes { OnOk result ((before : Items OfEvent) → HasRecorded self.old before → HasRecorded self.new (before ++ e ∷ [])) }
        ensures cross { self.new.cross ≡ self.old.cross }
        ensures timing { self.new.timing ≡ self.old.timing }
        ensures shape { self.new.auditor.shape ≡ self.old.auditor.shape }
        ensures rows { self.new.auditor.rows ≡ self.old.auditor.rows }
        ensures asked { self.new.asked ≡ self.old.asked }
    {
        let executed = executed_at(&self.auditor, &e);
        let sent = sent_before(&self.auditor, &e);
        match self.auditor.event(e, steps) {
            Ok(()) => self.note(&e, executed, sent),
            Err(fault) => Err(self.halt(&e, fault)),
        }
    }

    // Notes what an event is drawn as that was taken.
    fn note(&mut self, e: &Event, executed: u32, sent: u64) -> Result<(), Stop<Stopped>>
        requires event { IsEventOf self.old.auditor.shape e.now }
        ensures auditor { self.new.auditor ≡ self.old.auditor }
        ensures cross { self.new.cross ≡ self.old.cross }
        ensures timing { self.new.timing ≡ self.old.timing }
        ensures asked { self.new.asked ≡ self.old.asked }
        ensures tapes { OnOk result ((deed : Deed) × IsDeedDone self.old.auditor e.now deed
            × TapesStroke self.old.tape self.new.tape (stroke_by self.old.cross self.old.auditor.shape self.old.auditor.taken deed executed sent e.now)) }
        ensures short { IfErr result (λ stop. stop ≡ stops.Memory) }
    {
        let deed = done_at(&self.auditor, e);
        let number = self.auditor.taken_count();
        let stroke = stroke_by(
            self.cross.as_slice(),
            self.auditor.shape(),
            number,
            deed,
            executed,
            sent,
            e,
        );
        match self.tape.push(stroke) {
            Ok(()) => Ok(()),
            Err(_) => Err(Stop::Memory),
        }
    }

    // Stops at an event that the auditor did not take.
    fn halt(&self, e: &Event, fault: AuditFault) -> Stop<Stopped>
        requires event { IsEventOf self.now.auditor.shape e.now }
        requires stands { (before : Items OfEvent) × HasRecorded self.now before }
        requires judged { (before : Items OfEvent) → HasRecorded self.now before → JudgesEvent (offence_behind self.now before e.now) (Err fault) }
        ensures judges { (before : Items OfEvent) → HasRecorded self.now before → JudgesNextEvent (recorder_rules self.now) before e.now (Err result) }
    {
        match fault {
            AuditFault::Offence(offence) => self.stop(e, offence),
            AuditFault::Memory => Stop::Memory,
        }
    }

    // Stops at an event with an offence, with what is drawn of the list.
    fn stop(&self, e: &Event, offence: Offence) -> Stop<Stopped>
        requires event { IsEventOf self.now.auditor.shape e.now }
        requires stands { (before : Items OfEvent) × HasRecorded self.now before }
        requires offence { (before : Items OfEvent) → HasRecorded self.now before → offence_behind self.now before e.now ≡ Some offence }
        ensures judges { (before : Items OfEvent) → HasRecorded self.now before → JudgesNextEvent (recorder_rules self.now) before e.now (Err result) }
    {
        match self.stopped(e, offence) {
            Ok(stopped) => Stop::Offence(stopped),
            Err(_) => Stop::Memory,
        }
    }

    // What is drawn of a list with an offence at this event.
    fn stopped(&self, e: &Event, offence: Offence) -> Result<Stopped, Memory>
        requires event { IsEventOf self.now.auditor.shape e.now }
        requires stands { (before : Items OfEvent) × HasRecorded self.now before }
        requires offence { (before : Items OfEvent) → HasRecorded self.now before → offence_behind self.now before e.now ≡ Some offence }
        ensures { IfOk result (λ x. (before : Items OfEvent) → HasRecorded self.now before
            → x ≡ stopped_at self.now.asked self.now.cross self.now.auditor.shape self.now.timing self.now.auditor.rows before e.now offence) }
    {
        let last = last_mark_for(&self.tape, offence);
        let oldest = oldest_read(&self.auditor, offence);
        let shape = self.auditor.shape();
        let refused = refused_by(self.alloc, shape, &self.timing, last, oldest, e, offence)?;
        stopped_before(self.alloc, self, refused)
    }
}

impl Replica<()> for Recorder {
    type Event = Event;

    type Offence = Stopped;

    ghost rules = { recorder_rules };

    ghost stands = { λ a outside steps before. HasRecorded a before };

    ghost keeps = { λ a v b w. KeepsRecorder a b };

    ghost faults = { λ outside. 0 };

    ghost prompt = { λ outside. ⊥ };

    fn take_line<L: Ledger>(
        &mut self,
        line: &[u8],
        _outside: &mut (),
        steps: &mut Steps<L>,
    ) -> Result<(), Stop<Stopped>> {
        self.auditor.invariant_holds();
        match self.places.read_event(line, self.auditor.shape()) {
            Err(fault) => Err(Stop::Row(fault)),
            Ok(e) => self.take(e, steps),
        }
    }

    fn missing(&self) -> Option<Stopped> {
        None
    }

    ghost long = { λ r line long. long_line r.auditor.shape line long };

    ghost keeps_same = { λ r w. (refl, refl, refl, refl, refl) };

    ghost keeps_on = { λ a u b v c w x y. (y.0 ∙ x.0, y.1 ∙ x.1, y.2 ∙ x.2, y.3 ∙ x.3, y.4 ∙ x.4) };

    ghost keeps_rules = { λ a v b w x. λ i. drawing_rules (x.4 i) (x.0 i) (x.2 i) (x.1 i) (x.3 i) };

    ghost keeps_prompt = { λ a v b w x prompt. prompt };
}

impl Drawable for Recorder {
    ghost asked = { λ r. r.asked };

    ghost draws = { λ r w. DrawsRecorded r w };

    ghost channels = { λ r. chan_count r.auditor.shape };

    ghost transit = { λ r c. pending_on r.cross r.auditor.shape r.timing (chan_at r.auditor.chans) c };

    fn tape(&self) -> &Tape {
        &self.tape
    }

    fn miss(&self) -> Option<Miss> {
        first_miss(&self.auditor)
    }

    fn channel_count(&self) -> u32 {
        self.auditor.invariant_holds();
        self.auditor.shape().channels.len() as u32
    }

    fn transit_count(&self, channel: u32) -> usize {
        self.auditor.transit_count(channel)
    }

    fn arrow_at(&self, channel: u32, place: usize) -> Arrow {
        let sent = sent_at(&self.auditor, channel, place);
        let cross = self.cross.as_slice();
        pending_arrow(&self.auditor, cross, &self.timing, channel, sent)
    }
}

impl Recording for Recorder {
    ghost whole = { recorder_whole };

    fn is_ended(&self) -> bool {
        self.auditor.reached().is_some()
    }

    ghost calm = { λ outside. refl };

    ghost draws_whole = { λ a outside steps es recorded. (es, recorded, refl) };

    ghost keeps_asked = { λ a v b w x. x.4 };

    ghost keeps_whole = { λ a v b w x. λ i es. whole_course (x.0 i) (x.2 i) (x.1 i) (x.3 i) es };
}
