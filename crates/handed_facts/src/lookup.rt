//! Facts of other packages by path and name.
ghost use Rattle.std.specs.Prelude.{◌≡◌, ℕ, List, IfOk, is_some, map, option_map, option_and_then, slice_get};
ghost use Rattle.go_tree.specs.Lexeme.{place_of};
ghost use Rattle.fact_codec.specs.Tables.{fact_of};
ghost use Rattle.unit_read.specs.Index.{texts_of, found};
ghost use Rattle.handed_facts.specs.Handed.{path_in, fact_in, AreToldBy};

use crate::reading::tables_told;
use fact_codec::{FactKind, FactTable};
use gv_base::{Bytes, NoMemory, Text};
use std::alloc::Global;
use std::collections::HashMap;
use unit_read::{find, index};

/// What the facts of each package are, and the place of each package by its path.
#[derive(Drop)]
pub struct Handed<'a, F: FactKind> {
    pub given: &'a [(Text, Bytes)],
    pub tables: Vec<FactTable<F>>,
    pub places: HashMap<&'a [u8], usize>,
}

fn paths_of(alloc: Global, given: &[(Text, Bytes)]) -> Result<Vec<&[u8]>, NoMemory>
    ensures { IfOk result (λ paths. texts_of paths.items ≡ map path_in given.now) }
{
    let mut paths = Vec::new(alloc);
    for x in given {
        paths.push(x.0.as_str().as_bytes())?;
    }
    Ok(paths)
}

fn places_of(alloc: Global, given: &[(Text, Bytes)]) -> Result<HashMap<&[u8], usize>, NoMemory>
    ensures { IfOk result (λ places. (q : List ℕ) → found places q ≡ place_of (map path_in given.now) q) }
{
    let paths = paths_of(alloc, given)?;
    let places = index(alloc, &paths)?;
    Ok(places)
}

/// The facts that are handed in.
pub fn read_handed<'a, F: FactKind>(
    alloc: Global,
    given: &'a [(Text, Bytes)],
) -> Result<Handed<'a, F>, NoMemory>
    ensures given { IfOk result (λ h. h.given.now ≡ given.now) }
    ensures told { IfOk result (λ h. AreToldBy F.spelling given.now h.tables.items) }
    ensures places { IfOk result (λ h. (q : List ℕ) → found h.places q ≡ place_of (map path_in given.now) q) }
{
    let tables = tables_told::<F>(alloc, given)?;
    let places = places_of(alloc, given)?;
    Ok(Handed {
        given,
        tables,
        places,
    })
}

fn fact_of<F: FactKind>(table: &FactTable<F>, name: &str) -> bool
    ensures { result ≡ is_some (fact_of table.now name.now) }
{
    table.get(name).is_some()
}

pub(crate) fn nth<F: FactKind>(tables: &Vec<FactTable<F>>, i: usize) -> Option<&FactTable<F>>
    ensures { option_map (λ t. t.now) result ≡ slice_get tables.now.items i }
{
    tables.get(i)
}

fn has_at<F: FactKind>(tables: &Vec<FactTable<F>>, place: usize, name: &str) -> bool
    ensures { result ≡ is_some (option_and_then (λ t. fact_of t name.now) (slice_get tables.now.items place)) }
{
    match nth(tables, place) {
        Some(table) => fact_of(table, name),
        None => false,
    }
}

impl<'a, F: FactKind> Handed<'a, F> {
    /// Whether a name of a package has a fact.
    pub fn has(&self, path: &[u8], name: &str) -> bool
        requires places { (q : List ℕ) → found self.now.places q ≡ place_of (map path_in self.now.given.now) q }
        ensures { result ≡ is_some (fact_in self.now.given.now self.now.tables.items path.now name.now) }
    {
        match find(&self.places, path) {
            Some(place) => has_at(&self.tables, place, name),
            None => false,
        }
    }
}
