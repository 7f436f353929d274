// Lists: a `Vec` that contracts see as the list of its elements.
ghost use Rattle.std.specs.Prelude.{◌≡◌, ◌↔◌, ◌++◌, ◌∷◌, [], length, IfOk, IsTrue, OnOk, OnErr};
ghost use Rattle.std.specs.Slice.Iter.{iter_rest};

use crate::Memory;
use std::alloc::Global;
use std::marker::Model;
use std::ops::DerefSlice;
use std::slice;

/// A value that can be copied, where memory is found.
pub trait Duplicate: Drop {
    /// An equal value.
    fn duplicate(&self) -> Result<Self, Memory>
        ensures { IfOk result (λ twin. twin ≡ self.now) };
}

impl Duplicate for u32 {
    fn duplicate(&self) -> Result<u32, Memory> {
        Ok(*self)
    }
}

impl Duplicate for (u32, bool) {
    fn duplicate(&self) -> Result<(u32, bool), Memory> {
        Ok(*self)
    }
}

/// A list, whose capacity no contract sees.
#[derive(Drop)]
pub struct List<T> {
    items: Vec<T>,
}

impl<T> Model for List<T> {
    ghost use Rattle.std.specs.Prelude.{List as Items};

    ghost Value = { Items T };

    ghost view = { λ l. l.items.items };
}

impl<T> List<T> {
    /// An empty list, which takes no memory.
    pub fn new(alloc: Global) -> Self
        ensures { result ≡ [] }
    {
        List {
            items: Vec::new(alloc),
        }
    }

    /// The list of these elements. It takes no memory.
    pub fn of(items: Vec<T>) -> Self
        ensures { result ≡ items.items }
    {
        List { items }
    }

    pub fn len(&self) -> usize
        ensures { result ≡ length self.now }
    {
        self.items.len()
    }

    pub fn is_empty(&self) -> bool
        ensures { IsTrue result ↔ (self.now ≡ []) }
    {
        self.items.is_empty()
    }

    pub fn as_slice(&self) -> &[T]
        ensures { result.now ≡ self.now }
    {
        self.items.as_slice()
    }

    /// Its elements, in a `Vec` again.
    pub fn into_vec(self) -> Vec<T>
        ensures { result.items ≡ self }
    {
        self.items
    }
}

impl<T> DerefSlice for List<T> {
    type Elem = T;

    ghost deref_gives = { λ list items. items ≡ list };

    fn deref(&self) -> &[T] {
        self.as_slice()
    }
}

impl<'a, T> IntoIterator for &'a List<T> {
    type Item = &'a T;

    type IntoIter = slice::Iter<'a, T>;

    ghost into_iter_gives = { λ list it. iter_rest it ≡ list.now };

    fn into_iter(self) -> Self::IntoIter {
        self.as_slice().iter()
    }
}

impl<T: Drop> List<T> {
    /// Appends an element.
    pub fn push(&mut self, item: T) -> Result<(), Memory>
        ensures ok { OnOk result (self.new ≡ self.old ++ item ∷ []) }
        ensures err { OnErr result (self.new ≡ self.old) }
    {
        self.items.push(item)?;
        Ok(())
    }
}

impl<T: Copy + Drop> List<T> {
    /// A list with the elements of this slice.
    pub fn from_slice(alloc: Global, items: &[T]) -> Result<Self, Memory>
        ensures { IfOk result (λ list. list ≡ items.now) }
    {
        let mut list = Vec::with_capacity(alloc, items.len())?;
        for item in items {
            list.push(*item)?;
        }
        Ok(List { items: list })
    }
}

impl List<u8> {
    /// Appends bytes.
    pub fn extend(&mut self, bytes: &[u8]) -> Result<(), Memory>
        ensures ok { OnOk result (self.new ≡ self.old ++ bytes.now) }
        ensures err { OnErr result (self.new ≡ self.old) }
    {
        self.items.extend_from_slice(bytes)?;
        Ok(())
    }
}

impl<T: Duplicate> List<T> {
    /// An equal list, with the allocator of this one.
    pub fn copy(&self) -> Result<List<T>, Memory>
        ensures { IfOk result (λ copy. copy ≡ self.now) }
    {
        let mut items = Vec::with_capacity(*self.items.allocator(), self.items.len())?;
        for item in &self.items {
            items.push(item.duplicate()?)?;
        }
        Ok(List { items })
    }
}

impl<T: Duplicate> Duplicate for List<T> {
    fn duplicate(&self) -> Result<List<T>, Memory> {
        self.copy()
    }
}
