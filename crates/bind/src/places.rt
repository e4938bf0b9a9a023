//! The place of each name in a list.
ghost use Rattle.std.specs.Prelude.{◌≡◌, ◌<◌, ◌-◌, ℕ, List, IfOk, OnOk, Some, if◌then◌else◌, bytes_eq, map};
ghost use Rattle.bind.specs.Places.{placed, place_from};

use gv_base::NoMemory;
use std::alloc::Global;
use std::collections::HashMap;

/// The place of a name.
pub fn place_of(places: &HashMap<&[u8], usize>, name: &[u8]) -> Option<usize>
    ensures { result ≡ placed places.now name.now }
{
    places.get(name).copied()
}

fn keep<'a>(
    places: &mut HashMap<&'a [u8], usize>,
    name: &'a [u8],
    place: usize,
) -> Result<(), NoMemory>
    ensures { OnOk result ((q : List ℕ) → placed places.new q ≡ (if bytes_eq name.now q then Some place else placed places.old q)) }
{
    places.insert(name, place)?;
    Ok(())
}

/// The first place of each name.
pub fn places<'a>(alloc: Global, names: &[&'a [u8]]) -> Result<HashMap<&'a [u8], usize>, NoMemory>
    ensures { IfOk result (λ places. (q : List ℕ) → placed places q ≡ place_from 0 (map (λ n. n.now) names.now) q) }
{
    let mut places = HashMap::new(alloc);
    let mut left = names.len();
    while left > 0 {
        left -= 1;
        let name = names[left];
        keep(&mut places, name, left)?;
    }
    Ok(places)
}
