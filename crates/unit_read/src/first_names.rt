//! Names by their first place in a list.
ghost use Rattle.std.specs.Prelude.{◌≡◌, ℕ, List, IfOk, OnOk, Some, if◌then◌else◌};
ghost use Rattle.std.specs.Str.{bytes_eq};
ghost use Rattle.go_tree.specs.Lexeme.{place_of};
ghost use Rattle.unit_read.specs.Index.{texts_of, found, AddsName};

use gv_base::NoMemory;
use std::alloc::Global;
use std::collections::HashMap;

/// What is kept under a name.
pub fn find<X: Copy>(names: &HashMap<&[u8], X>, name: &[u8]) -> Option<X>
    ensures { result ≡ found names.now name.now }
{
    names.get(name).copied()
}

/// Keeps a value under a name, and gives back what was kept under it.
fn replace<'a, X: Copy>(
    names: &mut HashMap<&'a [u8], X>,
    name: &'a [u8],
    value: X,
) -> Result<Option<X>, NoMemory>
    ensures was { IfOk result (λ was. was ≡ found names.old name.now) }
    ensures now { OnOk result ((q : List ℕ) → found names.new q ≡ (if bytes_eq name.now q then Some value else found names.old q)) }
{
    let was = names.insert(name, value)?;
    Ok(was)
}

/// Keeps a value under a name, where none is kept yet. A name is seldom kept twice, so it is looked up once, and what was kept is put back.
pub fn add_name<'a, X: Copy>(
    names: &mut HashMap<&'a [u8], X>,
    name: &'a [u8],
    value: X,
) -> Result<(), NoMemory>
    ensures { OnOk result (AddsName names.old names.new name.now value) }
{
    let was = replace(names, name, value)?;
    match was {
        Some(first) => {
            replace(names, name, first)?;
            Ok(())
        }
        None => Ok(()),
    }
}

/// The first place of each name.
pub fn index<'a>(alloc: Global, list: &[&'a [u8]]) -> Result<HashMap<&'a [u8], usize>, NoMemory>
    ensures { IfOk result (λ names. (q : List ℕ) → found names q ≡ place_of (texts_of list.now) q) }
{
    let mut names = HashMap::with_capacity(alloc, list.len())?;
    for place in 0..list.len() {
        add_name(&mut names, list[place], place)?;
    }
    Ok(names)
}
