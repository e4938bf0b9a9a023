//! Which part of a struct says a name first.
ghost use Rattle.std.specs.Prelude.{◌≡◌, ◌+◌, ℕ, List, Some, None, if◌then◌else◌, Option, option_map, option_and_then, IfOk, OnOk};
ghost use Rattle.std.specs.Global.{Vec as OneVec};
ghost use Rattle.std.specs.Str.{bytes_eq};
ghost use Rattle.go_tree.specs.declared.tree.Node.{Node as OneNode};
ghost use Rattle.unit_read.specs.Units.{Unit};
ghost use Rattle.vet_simple.specs.declared.tags.Pair.{Pair as OnePair};
ghost use Rattle.vet_simple.specs.InRuns.{kept, noted};
ghost use Rattle.vet_simple.specs.StructTags.{part_key};
ghost use Rattle.vet_simple.specs.TagSpots.{IsMet};

use gv_base::NoMemory;
use std::alloc::Global;
use std::collections::HashMap;

fn get(met: &HashMap<Vec<u8>, usize>, key: &[u8]) -> Option<usize>
    ensures { result ≡ kept met.now key.now }
{
    met.get(key).copied()
}

fn put(met: &mut HashMap<Vec<u8>, usize>, key: Vec<u8>, i: usize) -> Result<(), NoMemory>
    ensures { OnOk result ((k : List ℕ) → kept met.new k ≡ (if bytes_eq key.items k then Some i else kept met.old k)) }
{
    met.insert(key, i)?;
    Ok(())
}

/// What was noted under a key; where nothing was, this is noted.
fn note(
    met: &mut HashMap<Vec<u8>, usize>,
    key: Vec<u8>,
    i: usize,
) -> Result<Option<usize>, NoMemory>
    ensures before { IfOk result (λ o. o ≡ kept met.old key.items) }
    ensures after { OnOk result ((k : List ℕ) → kept met.new k ≡ noted (kept met.old k) (bytes_eq key.items k) i) }
{
    match get(met, &key) {
        Some(before) => Ok(Some(before)),
        None => {
            put(met, key, i)?;
            Ok(None)
        }
    }
}

fn copy(alloc: Global, bytes: &[u8]) -> Result<Vec<u8>, NoMemory>
    ensures { IfOk result (λ copy. copy.items ≡ bytes.now) }
{
    let mut copy = Vec::new(alloc);
    copy.extend_from_slice(bytes)?;
    Ok(copy)
}

/// The first part that was noted under a key; where none was, this one is noted.
pub(crate) fn note_key(
    alloc: Global,
    met: &mut HashMap<Vec<u8>, usize>,
    key: &Option<Vec<u8>>,
    i: usize,
) -> Result<Option<usize>, NoMemory>
    ensures before { IfOk result (λ o. o ≡ option_and_then (kept met.old) (option_map (λ (v : OneVec ℕ). v.items) key.now)) }
    ensures met { OnOk result ((of : List OnePair → Option (List ℕ)) (u : Unit) (f : ℕ) (parts : OneNode) → IsMet of u f parts i met.old → part_key of u f parts i ≡ option_map (λ (v : OneVec ℕ). v.items) key.now → IsMet of u f parts (i + 1) met.new) }
{
    match key {
        Some(key) => {
            let own = copy(alloc, key)?;
            let before = note(met, own, i)?;
            Ok(before)
        }
        None => Ok(None),
    }
}
