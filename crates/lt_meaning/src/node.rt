// Expressions over cells.

ghost use Rattle.std.specs.Prelude.{◌≡◌};
ghost use Rattle.lt_base.specs.Meaning.{entry, present};
ghost use Rattle.lt_meaning.specs.Form.{node_form, value_in};

use lt_base::{Bin, Clock, Imp, Slot, Un, Value};

/// An expression whose delays and calls have cells of their own.
#[derive(Drop)]
pub enum Node {
    Literal(Value),
    /// What a variable has, or what a call answered.
    Cell(usize),
    /// What a delay has kept.
    Kept(usize),
    Unary(Un, Box<Node>),
    Binary(Bin, Box<Node>, Box<Node>),
    Imported(Imp, Box<Node>, Box<Node>),
    Choose(Box<Node>, Box<Node>, Box<Node>),
    /// The first where the cell is true, the second where it is false.
    Merge(usize, Box<Node>, Box<Node>),
}

impl Node {
    /// Its value over these cells and over what the delays kept.
    #[cycle(value)]
    pub fn value(&self, cells: &[Slot], kept: &[Slot]) -> Slot
        ensures { result ≡ value_in (entry cells.now) (entry kept.now) (node_form self.now) }
    {
        match self {
            Node::Literal(v) => Slot::full(*v),
            Node::Cell(x) => at(cells, *x),
            Node::Kept(k) => at(kept, *k),
            Node::Unary(o, a) => Slot::unary(*o, a.value(cells, kept)),
            Node::Binary(o, a, b) => Slot::binary(*o, a.part(cells, kept), b.part(cells, kept)),
            Node::Imported(o, a, b) => {
                Slot::of_import(*o, a.part(cells, kept), b.part(cells, kept))
            }
            Node::Choose(c, a, b) => match c.value(cells, kept).truth() {
                Some(true) => a.part(cells, kept),
                Some(false) => b.part(cells, kept),
                None => Slot::empty(),
            },
            Node::Merge(c, a, b) => match at(cells, *c).truth() {
                Some(true) => a.part(cells, kept),
                Some(false) => b.part(cells, kept),
                None => Slot::empty(),
            },
        }
    }

    // The same, for a part of a node: most parts are cells, which are quickest to read in place.
    #[cycle(value)]
    #[inline(always)]
    fn part(&self, cells: &[Slot], kept: &[Slot]) -> Slot
        ensures { result ≡ value_in (entry cells.now) (entry kept.now) (node_form self.now) }
    {
        match self {
            Node::Cell(x) => at(cells, *x),
            Node::Kept(k) => at(kept, *k),
            _ => self.value(cells, kept),
        }
    }
}

/// What a cell has; none past the last.
pub fn at(cells: &[Slot], x: usize) -> Slot
    ensures { result ≡ entry cells.now x }
{
    match cells.get(x) {
        Some(slot) => *slot,
        None => Slot::empty(),
    }
}

/// Whether a clock is present.
pub fn is_present(clock: &Clock, cells: &[Slot]) -> bool
    ensures { result ≡ present (entry cells.now) clock.now }
{
    for (c, b) in clock.steps.iter() {
        if !at(cells, *c as usize).is_that(*b) {
            return false;
        }
    }
    true
}
