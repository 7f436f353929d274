// A search in depth that keeps the numbers it has met in parts: numbers of one part reach one another.

ghost use Rattle.std.specs.Prelude.{◌≡◌, ◌<◌, ◌≤◌, ◌+◌, ◌-◌, ◌*◌, ◌++◌, ◌∷◌, ℕ, List as Items, [], IfOk, MatchBool, OnOk, length, replicate, slice_index, slice_set, sum, take};
ghost use Rattle.lt_graph.specs.Tables.{next, IsTable};
ghost use Rattle.lt_graph.specs.Search.{SearchStands, IsMet, EndsWith, KeepsUpTo, closed_mark, mark};

use crate::table::{degrees, leads_to};
use lt_base::{List, Memory};
use std::alloc::Global;

/// How far the search has come with a number: not met, at that place of the stack, or in the component of that name.
#[derive(Clone, Copy)]
pub enum Mark {
    New,
    Open(usize),
    Done(usize),
}

/// The numbers that were met and have no component yet lie on the stack. `starts` has the places where its parts begin, and
/// `path` those of the numbers that may still lead to something.
#[derive(Drop)]
pub struct Search {
    pub marks: Vec<Mark>,
    pub rest: Vec<usize>,
    pub stack: Vec<usize>,
    pub starts: Vec<usize>,
    pub path: Vec<usize>,
}

fn new_marks(alloc: Global, size: usize) -> Result<Vec<Mark>, Memory>
    ensures { IfOk result (λ marks. marks.items ≡ replicate size Mark.New) }
{
    let mut marks = Vec::with_capacity(alloc, size)?;
    for _number in 0..size {
        marks.push(Mark::New)?;
    }
    Ok(marks)
}

fn ends_with(places: &[usize], place: usize) -> bool
    ensures { MatchBool result (EndsWith places.now place) (EndsWith places.now place → ⊥) }
{
    !places.is_empty() && places[places.len() - 1] == place
}

impl Search {
    /// Nothing is met.
    pub fn new(alloc: Global, table: &List<List<u32>>) -> Result<Search, Memory>
        ensures stands { IfOk result (SearchStands table.now) }
        ensures idle { IfOk result (λ s. s.path.items ≡ []) }
    {
        let marks = new_marks(alloc, table.len())?;
        let rest = degrees(alloc, table)?;
        Ok(Search {
            marks,
            rest,
            stack: Vec::new(alloc),
            starts: Vec::new(alloc),
            path: Vec::new(alloc),
        })
    }

    /// Puts a number on the stack that was not met.
    fn add(&mut self, y: usize) -> Result<(), Memory>
        requires within { y < length self.old.marks.items }
        ensures marks { OnOk result (self.new.marks.items ≡ slice_set self.old.marks.items y (Mark.Open (length self.old.stack.items))) }
        ensures rest { self.new.rest ≡ self.old.rest }
        ensures stack { OnOk result (self.new.stack.items ≡ self.old.stack.items ++ y ∷ []) }
        ensures starts { OnOk result (self.new.starts.items ≡ self.old.starts.items ++ length self.old.stack.items ∷ []) }
        ensures path { OnOk result (self.new.path.items ≡ self.old.path.items ++ length self.old.stack.items ∷ []) }
    {
        let place = self.stack.len();
        self.stack.push(y)?;
        self.starts.push(place)?;
        self.path.push(place)?;
        self.marks[y] = Mark::Open(place);
        Ok(())
    }

    /// Joins the parts of the stack from the one of a place on.
    fn join(&mut self, at: usize)
        ensures marks { self.new.marks ≡ self.old.marks }
        ensures rest { self.new.rest ≡ self.old.rest }
        ensures stack { self.new.stack ≡ self.old.stack }
        ensures path { self.new.path ≡ self.old.path }
        ensures starts { KeepsUpTo at self.old.starts.items self.new.starts.items }
    {
        let mut kept = self.starts.len();
        while kept > 0 && self.starts[kept - 1] > at {
            kept -= 1;
        }
        self.starts.truncate(kept);
    }

    /// Gives the numbers from a place of the stack on the name of their component, and takes them off.
    fn close(&mut self, place: usize, name: usize)
        requires place { place ≤ length self.old.stack.items }
        requires open { (i : ℕ) → i < length self.old.stack.items → mark self.old.marks.items (slice_index self.old.stack.items i) ≡ Mark.Open i }
        requires placed { (x i : ℕ) → mark self.old.marks.items x ≡ Mark.Open i → (i < length self.old.stack.items) × (slice_index self.old.stack.items i ≡ x) }
        ensures size { length self.new.marks.items ≡ length self.old.marks.items }
        ensures marks { (x : ℕ) → mark self.new.marks.items x ≡ closed_mark place name (mark self.old.marks.items x) }
        ensures rest { self.new.rest ≡ self.old.rest }
        ensures stack { self.new.stack.items ≡ take place self.old.stack.items }
        ensures starts { self.new.starts ≡ self.old.starts }
        ensures path { self.new.path ≡ self.old.path }
    {
        while self.stack.len() > place {
            if let Some(x) = self.stack.pop() {
                self.marks[x] = Mark::Done(name);
            }
        }
    }

    /// From the end of the path to the next number that it leads to, or back.
    pub fn step(&mut self, table: &List<List<u32>>) -> Result<(), Memory>
        requires table { IsTable table.now }
        requires stands { SearchStands table.now self.old }
        requires busy { 0 < length self.old.path.items }
        ensures stands { OnOk result (SearchStands table.now self.new) }
        ensures met { OnOk result ((x : ℕ) → IsMet (mark self.old.marks.items x) → IsMet (mark self.new.marks.items x)) }
        ensures shorter { OnOk result (2 * sum self.new.rest.items + length self.new.path.items < 2 * sum self.old.rest.items + length self.old.path.items) }
    {
        let place = self.path[self.path.len() - 1];
        let x = self.stack[place];
        let left = self.rest[x];
        if left == 0 {
            self.path.pop();
            if ends_with(&self.starts, place) {
                self.starts.pop();
                self.close(place, x);
            }
            return Ok(());
        }
        self.rest[x] = left - 1;
        let y = leads_to(table, x, left - 1) as usize;
        match self.marks[y] {
            Mark::New => self.add(y),
            Mark::Open(at) => {
                self.join(at);
                Ok(())
            }
            Mark::Done(_) => Ok(()),
        }
    }

    /// Goes on to the end of the path.
    pub fn follow(&mut self, table: &List<List<u32>>) -> Result<(), Memory>
        requires table { IsTable table.now }
        requires stands { SearchStands table.now self.old }
        ensures stands { OnOk result (SearchStands table.now self.new) }
        ensures idle { OnOk result (self.new.path.items ≡ []) }
        ensures met { OnOk result ((x : ℕ) → IsMet (mark self.old.marks.items x) → IsMet (mark self.new.marks.items x)) }
    {
        while !self.path.is_empty() {
            self.step(table)?;
        }
        Ok(())
    }

    /// Begins at a number, unless it was met.
    pub fn begin(&mut self, root: usize) -> Result<(), Memory>
        requires root { root < length self.old.marks.items }
        requires idle { self.old.path.items ≡ [] }
        ensures stands { OnOk result ((table : Items (Items ℕ)) → SearchStands table self.old → SearchStands table self.new) }
        ensures met { OnOk result ((x : ℕ) → IsMet (mark self.old.marks.items x) → IsMet (mark self.new.marks.items x)) }
        ensures root { OnOk result (IsMet (mark self.new.marks.items root)) }
    {
        match self.marks[root] {
            Mark::New => self.add(root),
            _ => Ok(()),
        }
    }
}
