// The events of a schedule, as they are taken one after another.
ghost use Rattle.std.specs.Prelude.{◌≡◌, ◌++◌, [], List as Items, IfOk, OnOk};
ghost use Rattle.std.proofs.Common.{refl, ◌∙◌};
ghost use Rattle.lt_arch.specs.declared.event.Event.{Event as OfEvent};
ghost use Rattle.lt_arch.specs.Schedule.{IsEventOf};
ghost use Rattle.lt_schedule.specs.Long.{long_line};
ghost use Rattle.lt_schedule.specs.Verdict.{rules_of};
ghost use Rattle.lt_inspect.specs.Inspecting.{added, stop_by};
ghost use Rattle.lt_inspect.specs.Taking.{HasInspected, JudgesInspected, KeepsInspection, TakesNext};
ghost use Rattle.lt_inspect.specs.Traces.{trace_header_text};

use crate::scene::Scene;
use lt_arch::{Event, Offence};
use lt_audit::{AuditFault, Auditor, Tap};
use lt_base::{List, Memory, Steps};
use lt_rows::{PlaceTable, print_event};
use lt_schedule::{Replica, Stop};
use std::alloc::Global;
use std::sync::ledger::Ledger;

/// An auditor with the names by which events are read, and the rows of the events that a tap picks behind the header.
#[derive(Drop)]
pub struct Inspection {
    pub auditor: Auditor,
    places: PlaceTable,
    tap: Tap,
    text: List<u8>,
    alloc: Global,
}

impl Inspection {
    /// Before the first event over what was loaded; the rows of the events that the tap picks are written.
    pub fn over(alloc: Global, scene: Scene, tap: Tap) -> Result<Inspection, Memory>
        requires { tap.shape ≡ scene.shape }
        ensures fresh { IfOk result (λ i. HasInspected i []) }
        ensures shape { IfOk result (λ i. i.auditor.shape ≡ scene.shape) }
        ensures timing { IfOk result (λ i. i.auditor.watch.timing ≡ scene.timing) }
        ensures rows { IfOk result (λ i. i.auditor.rows ≡ scene.rows) }
        ensures selection { IfOk result (λ i. i.tap.selection ≡ tap.selection) }
    {
        let text = header(alloc)?;
        let places = PlaceTable::new(alloc, &scene.shape)?;
        Inspection::begin(alloc, scene, tap, places, text)
    }

    // The same with the names by which events are read, and the header.
    fn begin(
        alloc: Global,
        scene: Scene,
        tap: Tap,
        places: PlaceTable,
        text: List<u8>,
    ) -> Result<Inspection, Memory>
        requires tapped { tap.shape ≡ scene.shape }
        requires header { text ≡ trace_header_text }
        ensures fresh { IfOk result (λ i. HasInspected i []) }
        ensures shape { IfOk result (λ i. i.auditor.shape ≡ scene.shape) }
        ensures timing { IfOk result (λ i. i.auditor.watch.timing ≡ scene.timing) }
        ensures rows { IfOk result (λ i. i.auditor.rows ≡ scene.rows) }
        ensures selection { IfOk result (λ i. i.tap.selection ≡ tap.selection) }
    {
        let auditor = Auditor::start(alloc, scene.shape, scene.timing, scene.rows)?;
        Ok(Inspection {
            auditor,
            places,
            tap,
            text,
            alloc,
        })
    }

    /// The rows of the tap's events behind the header.
    pub fn into_text(self) -> List<u8>
        ensures { result ≡ self.text }
    {
        self.text
    }

    // Takes an event where it has no offence.
    fn take<L: Ledger>(&mut self, e: Event, steps: &mut Steps<L>) -> Result<(), AuditFault>
        requires event { IsEventOf self.old.auditor.shape e }
        requires stands { (before : Items OfEvent) × HasInspected self.old before }
        ensures judges { JudgesInspected self.old e result }
        ensures takes { OnOk result (TakesNext self.old self.new e) }
        ensures shape { self.new.auditor.shape ≡ self.old.auditor.shape }
        ensures timing { self.new.auditor.watch.timing ≡ self.old.auditor.watch.timing }
        ensures rows { self.new.auditor.rows ≡ self.old.auditor.rows }
        ensures selection { self.new.tap.selection ≡ self.old.tap.selection }
        ensures tapped { self.new.tap.shape ≡ self.old.tap.shape }
    {
        self.auditor.event(e, steps)?;
        match self.note(&e) {
            Ok(()) => Ok(()),
            Err(_) => Err(AuditFault::Memory),
        }
    }

    // Writes the row of an event that the tap picks.
    fn note(&mut self, e: &Event) -> Result<(), Memory>
        requires event { IsEventOf self.old.auditor.shape e.now }
        requires tapped { self.old.tap.shape ≡ self.old.auditor.shape }
        ensures auditor { self.new.auditor ≡ self.old.auditor }
        ensures selection { self.new.tap.selection ≡ self.old.tap.selection }
        ensures tapped { self.new.tap.shape ≡ self.old.tap.shape }
        ensures text { OnOk result (self.new.text ≡ self.old.text ++ added self.old.tap.selection self.old.tap.shape e.now) }
    {
        if self.tap.picks(e) {
            let row = print_event(self.alloc, e, self.auditor.shape())?;
            self.text.extend(&row)?;
        }
        Ok(())
    }
}

// The header's line.
fn header(alloc: Global) -> Result<List<u8>, Memory>
    ensures { IfOk result (λ text. text ≡ trace_header_text) }
{
    Ok(List::from_slice(alloc, b"time,event,place\n")?)
}

impl Replica<()> for Inspection {
    type Event = Event;

    type Offence = Offence;

    ghost rules = { λ a. rules_of a.auditor.shape a.auditor.watch.timing a.auditor.rows };

    ghost stands = { λ a outside steps before. HasInspected a before };

    ghost keeps = { λ a v b w. KeepsInspection a b };

    ghost faults = { λ outside. 0 };

    ghost prompt = { λ outside. ⊥ };

    fn take_line<L: Ledger>(
        &mut self,
        line: &[u8],
        _outside: &mut (),
        steps: &mut Steps<L>,
    ) -> Result<(), Stop<Offence>> {
        self.auditor.invariant_holds();
        match self.places.read_event(line, self.auditor.shape()) {
            Err(fault) => Err(Stop::Row(fault)),
            Ok(e) => match self.take(e, steps) {
                Ok(()) => Ok(()),
                Err(fault) => Err(stop_by(fault)),
            },
        }
    }

    fn missing(&self) -> Option<Offence> {
        if self.auditor.reached().is_some() {
            None
        } else {
            Some(Offence::NoEnd)
        }
    }

    ghost long = { λ r line long. long_line r.auditor.shape line long };

    ghost keeps_same = { λ r w. (refl, refl, refl, (refl, refl)) };

    ghost keeps_on = { λ a u b v c w x y. (y.0 ∙ x.0, y.1 ∙ x.1, y.2 ∙ x.2, (y.3.0 ∙ x.3.0, y.3.1 ∙ x.3.1)) };

    ghost keeps_rules = { λ a v b w x. λ i. rules_of (x.0 i) (x.1 i) (x.2 i) };

    ghost keeps_prompt = { λ a v b w x prompt. prompt };
}

// Why a line is not taken whose event an auditor refuses.
fn stop_by(fault: AuditFault) -> Stop<Offence>
    ensures { result ≡ stop_by fault }
{
    match fault {
        AuditFault::Offence(offence) => Stop::Offence(offence),
        AuditFault::Memory => Stop::Memory,
    }
}
