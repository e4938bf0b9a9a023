//! Paths in byte order.
ghost use Rattle.std.specs.Prelude.{◌≡◌, ◌<◌, ◌≤◌, ◌^◌, length, map, take, IfOk, OnOk, bytes_eq};
ghost use Rattle.std.specs.List.{dedup, filter};
ghost use Rattle.std.specs.List.Sorted.{IsPermutation, IsSorted};
ghost use Rattle.std.specs.Ordering.{nat_cmp};
ghost use Rattle.std.specs.Cmp.Lexicographic.{slice_cmp};
ghost use Rattle.import_graph.specs.Tables.{source_paths, AreAscending, AreSorted, IsPlaceIn};

use crate::homes::Home;
use gv_base::{NoMemory, Text};
use std::alloc::Global;

/// The paths of the source files' packages.
fn source_paths(alloc: Global, homes: &[Home]) -> Result<Vec<Text>, NoMemory>
    ensures paths { IfOk result (λ paths. paths.items ≡ source_paths homes.now) }
    ensures short { IfOk result (λ paths. length paths.items ≤ length homes.now) }
{
    let mut paths = Vec::new(alloc);
    for home in homes {
        if home.source {
            let path = home.path.copy(alloc)?;
            paths.push(path)?;
        }
    }
    Ok(paths)
}

fn sort(texts: &mut Vec<Text>)
    ensures moved { IsPermutation texts.old.items texts.new.items }
    ensures sorted { IsSorted (slice_cmp nat_cmp) texts.new.items }
    ensures size { length texts.new.items ≡ length texts.old.items }
{
    texts.sort_unstable_by(|a, b| a.as_str().as_bytes().cmp(b.as_str().as_bytes()));
}

fn drop_repeats(texts: &mut Vec<Text>)
    ensures same { texts.new.items ≡ dedup bytes_eq texts.old.items }
    ensures short { length texts.new.items ≤ length texts.old.items }
{
    texts.dedup_by(|a, b| a.as_str().as_bytes() == b.as_str().as_bytes());
}

/// The paths of the packages of which there are source files, in byte order, each once.
pub fn names(alloc: Global, homes: &[Home]) -> Result<Vec<Text>, NoMemory>
    ensures names { IfOk result (λ names. AreSorted (source_paths homes.now) names.items) }
    ensures short { IfOk result (λ names. length names.items ≤ length homes.now) }
{
    let mut names = source_paths(alloc, homes)?;
    sort(&mut names);
    drop_repeats(&mut names);
    Ok(names)
}

/// The place of a path among paths in byte order.
pub fn place_in(names: &[Text], path: &[u8]) -> Option<u32>
    requires order { AreAscending names.now }
    requires few { length names.now < 2 ^ 32 }
    ensures { IsPlaceIn names.now path.now result }
{
    match names.binary_search_by(|name| name.as_str().as_bytes().cmp(path)) {
        Ok(at) => Some(at as u32),
        Err(_) => None,
    }
}
