// Tables of names.
ghost use Rattle.std.specs.Prelude.{◌≡◌, ◌++◌, ◌∷◌, ◌<◌, ◌-◌, ◌^◌, ◌↔◌, [], not, Some, IfOk, IsTrue, OnOk, if◌then◌else◌, length};
ghost use Rattle.lt_resolve.specs.Names.{number_of_name, among, if_missing};
ghost use Rattle.lt_resolve.specs.Told.{TellsName};
ghost use Rattle.lt_base.specs.Memory.{NeedsNoMemory};

use indexmap::IndexSet;
use lt_base::{Memory, Or};
use std::alloc::Global;
use std::marker::Model;

/// The greatest number of 32 bits.
const MOST_NAMES: usize = 4_294_967_295;

/// Borrowed names, each once, with their numbers in the order in which they came. The numbers have 32 bits.
#[derive(Drop)]
pub struct Names<'a> {
    set: IndexSet<&'a str>,
}

impl<'a> Model for Names<'a> {
    ghost use Rattle.std.specs.Prelude.{List, ℕ, ◌<◌, ◌^◌, length, map};

    ghost Value = { List (List ℕ) };

    ghost view = { λ a. map (λ k. k.now) a.set.keys };

    ghost invariant = { λ a. length (map (λ k. k.now) a.set.keys) < 2 ^ 32 };
}

impl<'a> Names<'a> {
    /// No names, with room for that many.
    pub fn with_capacity(alloc: Global, names: usize) -> Result<Names<'a>, Memory>
        ensures { IfOk result (λ names. names ≡ []) }
    {
        let set = IndexSet::with_capacity(alloc, names)?;
        Ok(Names { set })
    }

    /// Puts a name last, where it is not there; answers whether it was not. The set itself has no room for as many names as
    /// 32 bits could number.
    pub fn insert(&mut self, name: &'a str) -> Result<bool, Memory>
        ensures fresh { IfOk result (λ fresh. fresh ≡ not (among self.old name.entry.now)) }
        ensures names { OnOk result (self.new ≡ (if among self.old name.entry.now then self.old else self.old ++ name.entry.now ∷ [])) }
    {
        if !self.has_room() {
            return Err(Memory);
        }
        let (_, fresh) = self.set.insert_full(name)?;
        Ok(fresh)
    }

    // Whether one more name can have a number of 32 bits.
    fn has_room(&self) -> bool
        ensures { IsTrue result ↔ length self.now < 2 ^ 32 - 1 }
    {
        self.set.len() < MOST_NAMES
    }

    pub fn number(&self, name: &str) -> Option<u32>
        ensures { result ≡ number_of_name self.now name.now }
    {
        match self.set.get_index_of(name) {
            Some(number) => Some(number as u32),
            None => None,
        }
    }

    pub fn has(&self, name: &str) -> bool
        ensures { result ≡ among self.now name.now }
    {
        self.set.contains(name)
    }

    /// The number of a name; refuses a name that is not there.
    pub fn find<'t>(&self, name: &'t str) -> Result<u32, Or<&'t str>>
        ensures told { TellsName (if_missing self.now name.now) result }
        ensures memory { NeedsNoMemory result }
        ensures number { IfOk result (λ i. number_of_name self.now name.now ≡ Some i) }
    {
        match self.number(name) {
            Some(i) => Ok(i),
            None => Err(Or::Fault(name)),
        }
    }

    /// Refuses a name that is not there.
    pub fn check<'t>(&self, name: &'t str) -> Result<(), Or<&'t str>>
        ensures told { TellsName (if_missing self.now name.now) result }
        ensures memory { NeedsNoMemory result }
    {
        if self.has(name) {
            Ok(())
        } else {
            Err(Or::Fault(name))
        }
    }
}
