//! The order in which packages are loaded.
ghost use Rattle.std.specs.Prelude.{◌≡◌, ◌<◌, ◌^◌, ℕ, length, map, IfOk};
ghost use Rattle.std.specs.List.{filter};
ghost use Rattle.need_order.specs.Graphs.{Leads};
ghost use Rattle.import_graph.specs.Orders.{is_sound, is_sound_at, AreNumbered, SoundImports, needs_of, IsLoadOrder};

use crate::pack::{PackState, Package};
use gv_base::NoMemory;
use need_order::{Graph, Needed};
use std::alloc::Global;

fn is_sound(state: &PackState) -> bool
    ensures { result ≡ is_sound state.now }
{
    matches!(state, PackState::Sound)
}

/// Whether the package of this number is sound.
fn is_sound_at(packages: &[Package], n: u32) -> bool
    ensures { result ≡ is_sound_at packages.now n }
{
    if (n as usize) < packages.len() {
        is_sound(&packages[n as usize].state)
    } else {
        false
    }
}

/// The sound packages among these.
fn sound_among(alloc: Global, packages: &[Package], numbers: &[u32]) -> Result<Vec<u32>, NoMemory>
    ensures { IfOk result (λ kept. kept.items ≡ filter (is_sound_at packages.now) numbers.now) }
{
    let mut kept = Vec::new(alloc);
    for n in numbers {
        if is_sound_at(packages, *n) {
            kept.push(*n)?;
        }
    }
    Ok(kept)
}

/// What a package needs to be loaded.
fn needs_of(alloc: Global, packages: &[Package], pack: &Package) -> Result<Vec<u32>, NoMemory>
    ensures { IfOk result (λ needs. needs.items ≡ needs_of packages.now pack.now) }
{
    if is_sound(&pack.state) {
        let needs = sound_among(alloc, packages, pack.imports.as_slice())?;
        return Ok(needs);
    }
    Ok(Vec::new(alloc))
}

/// What each package needs.
fn needs(alloc: Global, packages: &[Package]) -> Result<Graph, NoMemory>
    ensures { IfOk result (λ graph. graph ≡ map (needs_of packages.now) packages.now) }
{
    let mut graph = Graph::new(alloc)?;
    for pack in packages {
        let row = needs_of(alloc, packages, pack)?;
        graph = graph.with(&row)?;
    }
    Ok(graph)
}

/// The sound packages of an order of need.
fn sound_of(alloc: Global, packages: &[Package], needed: &[Needed]) -> Result<Vec<u32>, NoMemory>
    ensures { IfOk result (λ kept. kept.items ≡ filter (is_sound_at packages.now) (map (λ e. e.vertex) needed.now)) }
{
    let mut kept = Vec::new(alloc);
    for e in needed {
        if is_sound_at(packages, e.vertex) {
            kept.push(e.vertex)?;
        }
    }
    Ok(kept)
}

/// The sound packages, each once, after the sound ones that it imports. Each import number stands in
/// the list, and no sound package reaches itself by imports of sound ones.
///
/// The time is in step with the packages and their imports.
pub fn order(alloc: Global, packages: &[Package]) -> Result<Vec<u32>, NoMemory>
    requires numbered { AreNumbered packages.now }
    requires few { length packages.now < 2 ^ 32 }
    requires acyclic { (a : ℕ) → ¬ Leads (SoundImports packages.now) a a }
    ensures { IfOk result (λ order. IsLoadOrder packages.now order.items) }
{
    let graph = needs(alloc, packages)?;
    let needed = need_order::order(alloc, &graph)?;
    let order = sound_of(alloc, packages, &needed)?;
    Ok(order)
}
