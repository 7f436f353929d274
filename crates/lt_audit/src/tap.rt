// A function that says which events are selected.
ghost use Rattle.std.specs.Prelude.{◌≡◌, Bool};
ghost use Rattle.std.specs.Borrow.{Bor};
ghost use Rattle.lt_arch.specs.declared.event.Event.{Event as OfEvent};
ghost use Rattle.lt_arch.specs.declared.shape.Shape.{Shape as OfShape};
ghost use Rattle.lt_audit.specs.declared.selection.Selection.{Selection as OfSelection};
ghost use Rattle.lt_audit.specs.Selected as selected;

use crate::Selection;
use lt_arch::{Event, Shape};

/// A function that is kept beside the fact that it tells which events of a shape a selection selects.
#[derive(Drop)]
pub struct Tap {
    selection: Selection,
    shape: Shape,
    selects: fn(&Selection, &Shape, &Event) -> bool,
    ghost callable: { IsAlwaysCallable selects },
    ghost answers: { (k : Bor OfSelection) (s : Bor OfShape) (e : Bor OfEvent) (r : Bool) → k.now ≡ selection → s.now ≡ shape
        → post selects k s e r → r ≡ selected.selected selection shape e.now },
}

impl Tap {
    /// Keeps a function that selects the events of this shape as the selection does. It takes no memory.
    pub fn new(
        selection: Selection,
        shape: Shape,
        selects: fn(&Selection, &Shape, &Event) -> bool,
    ) -> Tap
        requires callable { IsAlwaysCallable selects }
        requires answers { (k : Bor OfSelection) (s : Bor OfShape) (e : Bor OfEvent) (r : Bool) → k.now ≡ selection → s.now ≡ shape
            → post selects k s e r → r ≡ selected.selected selection shape e.now }
        ensures selection { result.selection ≡ selection }
        ensures shape { result.shape ≡ shape }
    {
        Tap {
            selection,
            shape,
            selects,
        }
    }

    /// Whether an event is selected, by the function.
    pub fn picks(&self, e: &Event) -> bool
        ensures { result ≡ selected.selected self.now.selection self.now.shape e.now }
    {
        (self.selects)(&self.selection, &self.shape, e)
    }
}
