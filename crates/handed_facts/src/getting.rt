//! Facts of other packages themselves, where there are several kinds.
ghost use Rattle.std.specs.Prelude.{◌≡◌, ℕ, List, map, option_map, option_and_then, slice_get};
ghost use Rattle.go_tree.specs.Lexeme.{place_of};
ghost use Rattle.fact_codec.specs.Tables.{fact_of};
ghost use Rattle.unit_read.specs.Index.{found};
ghost use Rattle.handed_facts.specs.Handed.{path_in, fact_in};

use crate::lookup::{Handed, nth};
use fact_codec::{FactKind, FactTable};
use unit_read::find;

fn get_at<'t, F: FactKind>(tables: &'t Vec<FactTable<F>>, place: usize, name: &str) -> Option<&'t F>
    ensures { option_map (λ f. f.now) result ≡ option_and_then (λ t. fact_of t name.now) (slice_get tables.now.items place) }
{
    match nth(tables, place) {
        Some(table) => table.get(name),
        None => None,
    }
}

impl<'a, F: FactKind> Handed<'a, F> {
    /// The fact of a name of a package.
    pub fn get(&self, path: &[u8], name: &str) -> Option<&F>
        requires places { (q : List ℕ) → found self.now.places q ≡ place_of (map path_in self.now.given.now) q }
        ensures { option_map (λ f. f.now) result ≡ fact_in self.now.given.now self.now.tables.items path.now name.now }
    {
        match find(&self.places, path) {
            Some(place) => get_at(&self.tables, place, name),
            None => None,
        }
    }
}
