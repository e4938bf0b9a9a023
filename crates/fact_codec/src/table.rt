//! Facts by name.
ghost use Rattle.std.specs.Prelude.{◌≡◌, ◌≤◌, ◌<◌, [], ℕ, List, Some, None, length, slice_get, OnOk, OnErr, option_map};
ghost use Rattle.fact_codec.specs.Tables.{AreInOrder, IsPlaceOf, IsSplit, fact_of, put_fact};

use crate::kind::FactKind;
use gv_base::{NoMemory, Text};
use std::alloc::Global;
use std::marker::Model;

/// Facts by name. A contract sees the list of the names and their facts, in byte order of the names, which
/// are distinct.
#[derive(Drop)]
pub struct FactTable<F> {
    pub(crate) alloc: Global,
    pub(crate) entries: Vec<(Text, F)>,
}

impl<F> Model for FactTable<F> {
    ghost Value = { List (List ℕ × F) };

    ghost view = { λ t. t.entries.items };

    ghost invariant = { λ t. AreInOrder t.entries.items };
}

/// The place of a name among entries that are in order: `Ok` where it is held, else `Err` with the place
/// where it would stand.
fn place_of<F>(entries: &[(Text, F)], name: &[u8]) -> Result<usize, usize>
    requires { AreInOrder entries.now }
    ensures { IsPlaceOf entries.now name.now result }
{
    entries.binary_search_by(|entry| entry.0.as_str().as_bytes().cmp(name))
}

impl<F: FactKind> FactTable<F> {
    /// No facts. They are kept in memory of this allocator.
    pub fn new(alloc: Global) -> Self
        ensures { result ≡ [] }
    {
        FactTable {
            alloc,
            entries: Vec::new(alloc),
        }
    }

    fn place(&self, name: &str) -> Result<usize, usize>
        ensures { IsPlaceOf self.now name.now result }
    {
        place_of(&self.entries, name.as_bytes())
    }

    /// Where a name that isn't held would stand.
    fn gap(&self, name: &str) -> usize
        requires { fact_of self.now name.now ≡ None }
        ensures { IsSplit self.now name.now result result }
    {
        match self.place(name) {
            Ok(_) => unreachable!(),
            Err(at) => at,
        }
    }

    /// Adds the fact of a name that has none.
    pub fn put(&mut self, name: &str, fact: F) -> Result<(), NoMemory>
        requires absent { fact_of self.old name.now ≡ None }
        ensures put { OnOk result (self.new ≡ put_fact self.old name.now fact) }
        ensures unchanged { OnErr result (self.new ≡ self.old) }
    {
        let at = self.gap(name);
        let name = Text::of(self.alloc, name)?;
        self.entries.insert(at, (name, fact))?;
        Ok(())
    }

    /// The fact of a name; `None` exactly where it has none.
    pub fn get(&self, name: &str) -> Option<&F>
        ensures { option_map (λ f. f.now) result ≡ fact_of self.now name.now }
    {
        match self.place(name) {
            Ok(at) => Some(&self.entries[at].1),
            Err(_) => None,
        }
    }

    /// How many facts there are.
    pub fn count(&self) -> u64
        ensures { result ≡ length self.now }
    {
        self.entries.len() as u64
    }

    /// The name and the fact at this place, from 0, in order of the names.
    pub fn at(&self, i: u64) -> (&str, &F)
        requires { i < length self.now }
        ensures { slice_get self.now i ≡ Some (result.0.now, result.1.now) }
    {
        let entry = &self.entries[i as usize];
        (entry.0.as_str(), &entry.1)
    }
}
